// Leaves over slices: a value, or a run of values, read and stored at a place. All are total: past the end a byte reads as 0, and
// nothing is stored. What stands of a store alone serves bytes and the census's 16-bit numbers alike.
#![tactic(auto)]

ghost use Rattle.std.specs.Prelude.{◌≡◌, ◌+◌, ◌≤◌, get_or, length, replicate, take};
ghost use Rattle.rules.specs.Bytes.{word_at, part, over, one, two, six, zeros};

// ---- values of any type

// The value at a place, another past the end.
pub fn entry<T: Copy>(s: &[T], at: usize, none: T) -> T
    ensures { result ≡ get_or s.now at none }
{
    s.get(at).copied().unwrap_or(none)
}

// A value stored.
pub fn put<T: Copy>(s: &mut [T], at: usize, v: T)
    ensures { s.new ≡ over s.old at (one v) }
{
    if at < s.len() {
        s[at] = v;
    }
}

// A value stored i places behind a place. Their sum may be past any slice's end.
pub fn place<T: Copy>(s: &mut [T], at: usize, i: usize, v: T)
    ensures { s.new ≡ over s.old (at + i) (one v) }
{
    if i < s.len().saturating_sub(at) {
        s[at + i] = v;
    }
}

// A value stored everywhere. The library's `fill` asks for a clone that cannot fail, which a type that is copied need not have.
pub fn fill<T: Copy>(s: &mut [T], v: T)
    ensures { s.new ≡ replicate (length s.old) v }
{
    for x in s.iter_mut() {
        *x = v;
    }
}

// A value stored n times, from a place on, as often as there is room.
pub fn run<T: Copy>(dst: &mut [T], at: usize, n: usize, v: T)
    ensures { dst.new ≡ over dst.old at (replicate n v) }
{
    if n == 0 {
        return; // no part is made: most of the directory's slots have no file, and the census asks for each
    }
    if at < dst.len() {
        let n = n.min(dst.len() - at);
        fill(&mut dst[at..at + n], v);
    }
}

// Every value of dst set to that of src with the same index. By the library's `copy_from_slice`, which calls memcpy, format takes 1.66
// times the instructions of the plain Rust, and its aim is 1.5.
fn overlay<T: Copy>(dst: &mut [T], src: &[T])
    requires { length dst.old ≤ length src.now }
    ensures { dst.new ≡ take (length dst.old) src.now }
{
    for (i, x) in dst.iter_mut().enumerate() {
        *x = src[i];
    }
}

// The values of src stored, as many of them as there is room for.
pub fn store<T: Copy>(dst: &mut [T], at: usize, src: &[T])
    ensures { dst.new ≡ over dst.old at src.now }
{
    if dst.len() <= at {
        return;
    }
    if dst.len() - at < src.len() {
        overlay(&mut dst[at..], src);
        return;
    }
    overlay(&mut dst[at..at + src.len()], src);
}

// ---- bytes

// The byte at a place.
pub fn get(s: &[u8], at: usize) -> u8
    ensures { result ≡ get_or s.now at 0 }
{
    entry(s, at, 0)
}

// The byte i further on than a place.
pub fn get_in(s: &[u8], at: usize, i: usize) -> u8
    ensures { result ≡ get_or s.now (at + i) 0 }
{
    get(s, at.saturating_add(i))
}

// The number of two bytes at a place, high byte first.
pub fn get2(s: &[u8], at: usize) -> u16
    ensures { result ≡ word_at s.now at }
{
    u16::from_be_bytes([get(s, at), get_in(s, at, 1)])
}

// A number of two bytes stored.
pub fn put2(dst: &mut [u8], at: usize, v: u16)
    ensures { dst.new ≡ over dst.old at (two v) }
{
    if at < dst.len() {
        let [high, low] = v.to_be_bytes();
        dst[at] = high;
        put(dst, at + 1, low);
    }
}

// Three numbers of two bytes stored in a row.
pub fn put6(dst: &mut [u8], at: usize, x: u16, y: u16, z: u16)
    ensures { dst.new ≡ over dst.old at (six x y z) }
{
    let b = [x.to_be_bytes(), y.to_be_bytes(), z.to_be_bytes()];
    store(dst, at, b.as_flattened());
}

// n zeros stored, as many of them as there is room for.
pub fn clear(dst: &mut [u8], at: usize, n: usize)
    ensures { dst.new ≡ over dst.old at (zeros n) }
{
    run(dst, at, n, 0);
}

// A part of src stored: n bytes from its place `from` on, zeros for those that it does not have.
pub fn copy(dst: &mut [u8], at: usize, src: &[u8], from: usize, n: usize)
    ensures { dst.new ≡ over dst.old at (part src.now from n) }
{
    if src.len() <= from {
        clear(dst, at, n);
        return;
    }
    if src.len() - from < n {
        clear(dst, at, n);
        store(dst, at, &src[from..]);
        return;
    }
    store(dst, at, &src[from..from + n]);
}
