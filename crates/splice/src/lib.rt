// Bytes laid into a lent buffer, from a given byte on and nowhere else.
#![tactic(auto)]

ghost use Rattle.std.specs.Prelude.{◌≡◌, ◌++◌};
ghost use Rattle.splice.specs.Splice.{covered, fits, laid};

// Copies src over the start of dst, as far as both reach. Where src is empty nothing is called: most records are not cut, and of these nothing is carried.
pub fn copy_in(dst: &mut [u8], src: &[u8])
    ensures { dst.new ≡ covered dst.old src.now }
{
    if src.is_empty() {
        return;
    }
    let n = dst.len().min(src.len());
    dst[..n].copy_from_slice(&src[..n]);
}

// Copies one list and then another over the start of dst, as far as it reaches.
pub fn join_in(dst: &mut [u8], first: &[u8], second: &[u8])
    ensures { dst.new ≡ covered dst.old (first.now ++ second.now) }
{
    copy_in(dst, first);
    let n = first.len();
    if n < dst.len() {
        copy_in(&mut dst[n..], second);
    }
}

// Copies src into dst from `at` on, where it has room; else nothing changes.
pub fn copy_at(dst: &mut [u8], at: usize, src: &[u8]) -> bool
    ensures value { result ≡ fits dst.old at src.now }
    ensures dst_after { dst.new ≡ laid dst.old at src.now }
{
    let end = src.len();
    if (dst.len() < at) || (dst.len() - at < end) {
        return false;
    }
    dst[at..at + end].copy_from_slice(src);
    true
}
