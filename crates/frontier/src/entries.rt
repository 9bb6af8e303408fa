// The entries of lent tables, whatever they are: kept, and copied.
//
// The first entries of a table are in use.  Callers see that a table has the entries that a call
// speaks of.
ghost use Rattle.std.specs.Prelude.{◌≡◌, ◌+◌, ◌≤◌, ◌++◌, length, take, drop};
ghost use Rattle.std.specs.Fn.{CalledAt};
ghost use Rattle.std.specs.List.Retain.{IsFiltered};

// Moves those of the first `len` entries that the test keeps to the front, in their order, and tells
// how many they are.  What stays in its place is not written.
// A loop over places: it writes into the table that it reads, which no chain does.
pub fn retain<X: Copy, F: FnMut(&X) -> bool>(table: &mut [X], len: usize, mut keep: F) -> usize
    requires callable { F.IsAlwaysCallable keep }
    requires inside { len ≤ length table.old }
    ensures within { result ≤ len }
    ensures kept { IsFiltered (CalledAt F.FnMut) keep (take len table.old) (take result table.new) }
    ensures rest { drop len table.new ≡ drop len table.old }
{
    let mut kept = 0usize;
    for i in 0..len {
        if keep(&table[i]) {
            if kept < i {
                table[kept] = table[i];
            }
            kept += 1;
        }
    }
    kept
}

// Copies the first `n` entries of one table behind the first `len` of another.
pub fn append_entries<X: Copy>(from: &[X], n: usize, to: &mut [X], len: usize)
    requires { (n ≤ length from.now) × (len + n ≤ length to.old) }
    ensures front { take (len + n) to.new ≡ take len to.old ++ take n from.now }
    ensures rest { drop (len + n) to.new ≡ drop (len + n) to.old }
{
    let end = len + n;
    let part = &mut to[len..end];
    part.copy_from_slice(&from[0..n]);
}

// Copies the first `n` entries of one table to the front of another.
pub fn copy_entries<X: Copy>(from: &[X], to: &mut [X], n: usize)
    requires { (n ≤ length from.now) × (n ≤ length to.old) }
    ensures front { take n to.new ≡ take n from.now }
    ensures rest { drop n to.new ≡ drop n to.old }
{
    append_entries(from, n, to, 0);
}
