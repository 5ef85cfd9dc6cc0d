// The rows of the dictionary as a table: each SPN that 002 defines with a fixed length of 1 to 32 bits, once, in rising order, with its width
// (01, "A set and its judgement"; 002, Appendix C and 5.3); and beside it those of the older paper, 000 (02, Req 10). tools/rowscheck compares them with the texts.
// What a row is, and the rule that the rows keep, stand in the crate rowrule, and the look-up is the crate dictionary's.
#![tactic(auto)]

ghost use Rattle.std.specs.Prelude.{◌≡◌};
ghost use Rattle.rowrule.specs.Rows.{table, table2004};

use rowrule::Row;

// How many rows there are.
pub const COUNT: usize = 140;

pub const COUNT_2004: usize = 12;

// Rows of SPN and width, with the SPN's name.
#[rattlefmt::skip]
const ROWS: [Row; COUNT] = [
    Row { spn: 1488, width: 16 }, // Thresher Speed
    Row { spn: 1489, width: 8 }, // Cleaning Fan Speed
    Row { spn: 1490, width: 16 }, // Header Backshaft Speed
    Row { spn: 1497, width: 2 }, // Unloading Auger Drive
    Row { spn: 1498, width: 2 }, // Header Drive
    Row { spn: 1499, width: 2 }, // Separator Drive
    Row { spn: 1505, width: 8 }, // Automatic Header Sensitivity Adjustment
    Row { spn: 1506, width: 8 }, // Automatic Header Rate Adjustment Input
    Row { spn: 1508, width: 8 }, // Hydraulic Reservoir Temperature
    Row { spn: 1509, width: 8 }, // Thresher Separator Hydraulic Drive 1 Temperature
    Row { spn: 1510, width: 8 }, // Chopper Vane Angle Adjustment
    Row { spn: 1511, width: 8 }, // Right side Cleaning Shoe Relative Grain Loss
    Row { spn: 1512, width: 8 }, // Left side Cleaning Shoe Relative Grain Loss
    Row { spn: 1513, width: 8 }, // Right side Separator Relative Grain Loss
    Row { spn: 1514, width: 8 }, // Left side Separator Relative Grain Loss
    Row { spn: 1517, width: 8 }, // Header Lift Cylinder Pressure
    Row { spn: 1518, width: 8 }, // Header Sensor Identification
    Row { spn: 1519, width: 2 }, // Header Raise Valve Drive
    Row { spn: 1520, width: 2 }, // Header Lower Valve Drive
    Row { spn: 1521, width: 2 }, // Header Tilt Left Valve Drive
    Row { spn: 1522, width: 2 }, // Header Tilt Right Valve Drive
    Row { spn: 1523, width: 2 }, // Header Lift Cylinder Pressure Diverted Valve Drive
    Row { spn: 1524, width: 2 }, // Reel Position Forward Actuator
    Row { spn: 1525, width: 2 }, // Reel Position Aft Actuator
    Row { spn: 1526, width: 2 }, // Reel Position Raise Actuator
    Row { spn: 1527, width: 2 }, // Reel Position Lower Actuator
    Row { spn: 1528, width: 2 }, // Header Drop Rate Control Valve Drive
    Row { spn: 1529, width: 2 }, // Header Lift Cylinder Accumulator Shutoff Valve Drive
    Row { spn: 1530, width: 2 }, // Unloading auger flow bypass valve drive
    Row { spn: 1531, width: 2 }, // Reel Drive Motor Speed Increase Valve Drive
    Row { spn: 1532, width: 2 }, // Reel Drive Motor Speed Decrease Valve Drive
    Row { spn: 1534, width: 16 }, // Header Leftmost Height
    Row { spn: 1535, width: 16 }, // Header Rightmost Height
    Row { spn: 1536, width: 16 }, // Header Center Height
    Row { spn: 1537, width: 8 }, // Reel Fore-Aft Position
    Row { spn: 1538, width: 8 }, // Reel Up-Down Position
    Row { spn: 1539, width: 8 }, // Header Lateral Tilt Angle
    Row { spn: 1540, width: 8 }, // Reel Speed Actuator Position
    Row { spn: 1541, width: 16 }, // Reel Speed
    Row { spn: 1554, width: 16 }, // Clean Grain Elevator Speed
    Row { spn: 2989, width: 16 }, // Combine separator speed
    Row { spn: 2991, width: 8 }, // Tailings volume
    Row { spn: 2992, width: 2 }, // Move reel forward
    Row { spn: 2993, width: 2 }, // Move reel aft
    Row { spn: 2994, width: 2 }, // Reel raise
    Row { spn: 2995, width: 2 }, // Reel lower
    Row { spn: 2996, width: 2 }, // Header raise slow
    Row { spn: 2997, width: 2 }, // Header lower slow
    Row { spn: 2998, width: 2 }, // Header raise fast
    Row { spn: 2999, width: 2 }, // Header lower fast
    Row { spn: 3000, width: 2 }, // Tilt header left
    Row { spn: 3001, width: 2 }, // Tilt header right
    Row { spn: 3002, width: 2 }, // Header fold
    Row { spn: 3003, width: 2 }, // Header unfold
    Row { spn: 3004, width: 2 }, // Draper speed increment
    Row { spn: 3005, width: 2 }, // Draper speed decrement
    Row { spn: 3006, width: 2 }, // Reel speed increment
    Row { spn: 3007, width: 2 }, // Reel speed decrement
    Row { spn: 3008, width: 2 }, // Threshing clearance increment
    Row { spn: 3009, width: 2 }, // Threshing clearance decrement
    Row { spn: 3010, width: 2 }, // Threshing speed increment
    Row { spn: 3011, width: 2 }, // Threshing speed decrement
    Row { spn: 3012, width: 2 }, // Product fan speed increment
    Row { spn: 3013, width: 2 }, // Product fan speed decrement
    Row { spn: 3015, width: 2 }, // Implement fold down
    Row { spn: 3016, width: 2 }, // Implement fold up
    Row { spn: 3017, width: 2 }, // RH header raise
    Row { spn: 3018, width: 2 }, // LH header raise
    Row { spn: 3019, width: 2 }, // Product fan engage mode
    Row { spn: 3020, width: 2 }, // Augers engage mode
    Row { spn: 3021, width: 2 }, // Product basket fill state
    Row { spn: 3022, width: 2 }, // Augers enable mode
    Row { spn: 3023, width: 2 }, // Header height control mode
    Row { spn: 3024, width: 2 }, // Header remote tether control mode
    Row { spn: 3025, width: 2 }, // Lubrication control mode
    Row { spn: 3032, width: 8 }, // Right Brake Pedal Position
    Row { spn: 3033, width: 8 }, // Left Brake Pedal Position
    Row { spn: 3042, width: 16 }, // Requested Wheel Speed
    Row { spn: 3088, width: 8 }, // Header height vertical rate control
    Row { spn: 3089, width: 8 }, // Header height sensitivity control
    Row { spn: 3090, width: 8 }, // Header height setpoint change
    Row { spn: 3091, width: 8 }, // Header height setpoint change sequence number
    Row { spn: 3092, width: 16 }, // Header platform height
    Row { spn: 3093, width: 16 }, // Header platform height maximum
    Row { spn: 3096, width: 8 }, // Header float pressure
    Row { spn: 3097, width: 8 }, // Header float pressure maximum
    Row { spn: 3098, width: 8 }, // Header position percent
    Row { spn: 3099, width: 8 }, // Header position percent maximum
    Row { spn: 3102, width: 2 }, // Unloading Auger swing out
    Row { spn: 3103, width: 2 }, // Unloading auger swing in
    Row { spn: 3104, width: 2 }, // Unloading auger swing out-auto
    Row { spn: 3105, width: 2 }, // Unloading auger swing in-auto
    Row { spn: 3106, width: 2 }, // Side hill left tilt
    Row { spn: 3107, width: 2 }, // Side hill right tilt
    Row { spn: 3108, width: 2 }, // Spreader speed increment
    Row { spn: 3109, width: 2 }, // Spreader speed decrement
    Row { spn: 3110, width: 2 }, // Precleaner open
    Row { spn: 3111, width: 2 }, // Precleaner close
    Row { spn: 3112, width: 2 }, // Open chaffer
    Row { spn: 3113, width: 2 }, // Close chaffer
    Row { spn: 3114, width: 2 }, // Open sieve
    Row { spn: 3115, width: 2 }, // Close sieve
    Row { spn: 3116, width: 2 }, // Move chopper vane left
    Row { spn: 3117, width: 2 }, // Move chopper vane right
    Row { spn: 3118, width: 2 }, // Quick stop switch
    Row { spn: 3119, width: 2 }, // Unloading auger engage/disengage
    Row { spn: 3120, width: 2 }, // Unloading auger fold
    Row { spn: 3121, width: 2 }, // Unloading auger unfold
    Row { spn: 3122, width: 8 }, // Max allowable cleaning shoe travel
    Row { spn: 3123, width: 8 }, // Right hand header height setpoint
    Row { spn: 3124, width: 8 }, // Left hand header height setpoint
    Row { spn: 3125, width: 8 }, // Left hand header height
    Row { spn: 3126, width: 8 }, // Right hand header height
    Row { spn: 3127, width: 8 }, // Header control response rate setpoint
    Row { spn: 3128, width: 8 }, // Header control response rate maximum setpoint
    Row { spn: 3129, width: 8 }, // Header control response rate minimum setpoint
    Row { spn: 3130, width: 16 }, // Product system tank water level
    Row { spn: 3131, width: 16 }, // Product fan speed
    Row { spn: 3132, width: 8 }, // Product system manifold pressure
    Row { spn: 3133, width: 16 }, // Product system pump discharge pressure
    Row { spn: 3134, width: 16 }, // Product fan hours
    Row { spn: 3135, width: 8 }, // Right hand header height max setpoint
    Row { spn: 3136, width: 8 }, // Right hand header height min setpoint
    Row { spn: 3137, width: 8 }, // Left hand header height min setpoint
    Row { spn: 3138, width: 8 }, // Left hand header height max setpoint
    Row { spn: 3139, width: 16 }, // Right hand header unit speed
    Row { spn: 3140, width: 16 }, // Left hand header unit speed
    Row { spn: 3146, width: 24 }, // PGN of Message Being Configured
    Row { spn: 3147, width: 19 }, // Parameter Being Included
    Row { spn: 3148, width: 5 }, // Position of Configured Parameter
    Row { spn: 3149, width: 1 }, // Message Will Be Used Proprietarily
    Row { spn: 3150, width: 1 }, // Message Will Use Transport Protocol
    Row { spn: 3151, width: 1 }, // First Parameter Only Being Identified
    Row { spn: 3152, width: 5 }, // Number of Parameters Included
    Row { spn: 3153, width: 8 }, // Starting Bit for this Parameter
    Row { spn: 3154, width: 19 }, // Parameter to be Located
    Row { spn: 3155, width: 8 }, // Parameter Locate Command
    Row { spn: 3329, width: 8 }, // Message Selection Control
    Row { spn: 3330, width: 24 }, // PGN of Configurable Message Desired
    Row { spn: 3333, width: 16 }, // Feederhouse Height
];

// The one place where they lie.
static PLACED: [Row; COUNT] = ROWS;

// All rows, where they lie: nobody copies them.
#[tactic(auto, unfolding(rowrule::specs::Rows::table))]
pub fn all() -> &'static [Row; COUNT]
    ensures { result.now ≡ table }
{
    &PLACED
}

// Rows of SPN and width of the edition of 2004, with the place and the heading in 000.
#[rattlefmt::skip]
const ROWS_2004: [Row; COUNT_2004] = [
    Row { spn: 3146, width: 24 }, // 5.3.1.1 PGN of Message Being Configured
    Row { spn: 3147, width: 19 }, // 5.3.1.2 Parameter Being Included
    Row { spn: 3148, width: 5 }, // 5.3.1.3 Position of Configured Parameter
    Row { spn: 3149, width: 1 }, // 5.3.1.5 Message Will Be Used Proprietarily
    Row { spn: 3150, width: 1 }, // 5.3.1.6 Message Will Use Transport Protocol
    Row { spn: 3151, width: 1 }, // 5.3.1.7 First Parameter Only Being Identified
    Row { spn: 3152, width: 5 }, // 5.3.1.4 Number of Parameters Included
    Row { spn: 3153, width: 8 }, // 5.3.1.8 Starting Bit for this Parameter
    Row { spn: 3154, width: 19 }, // 5.3.2.1 Parameter to be Located
    Row { spn: 3155, width: 8 }, // 5.3.2.2 Parameter Locate Command
    Row { spn: 3329, width: 8 }, // 5.3.3.1 Message Selection Control
    Row { spn: 3330, width: 24 }, // 5.3.3.2 PGN of Configurable Message Desired
];

static PLACED_2004: [Row; COUNT_2004] = ROWS_2004;

// All rows of the edition of 2004.
#[tactic(auto, unfolding(rowrule::specs::Rows::table2004))]
pub fn all_2004() -> &'static [Row; COUNT_2004]
    ensures { result.now ≡ table2004 }
{
    &PLACED_2004
}
