// Definitions and laws that other crates cite: tests, searches, rows of words, tables of slots, runs. Its one function is what every memory of words begins with.
#![tactic(auto)]

ghost use Rattle.std.specs.Prelude.{◌≡◌, length, replicate};

// Every word 0.
pub fn clear(words: &mut [u64])
    ensures { words.new ≡ replicate (length words.old) 0 }
{
    words.fill(0);
}
