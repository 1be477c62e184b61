// Words set to 0: behind a value nothing is left.
ghost use Rattle.std.specs.Prelude.{◌≡◌, ◌-◌, ◌≤◌, length, replicate};
ghost use Rattle.std.proofs.lemmas.List.Edits.{sets};
ghost use Rattle.values.specs.Building.{cleared_from, finished};

// The words from `from` to `to`.
pub fn clear_words(work: &mut [u32], from: usize, to: usize)
    requires { (from ≤ to) × (to ≤ length work.old) }
    ensures { work.new ≡ sets work.old from (replicate (to - from) 0) }
{
    work[from..to].fill(0);
}

// All words from `out` on.
pub fn clear_from(work: &mut [u32], out: usize)
    requires { out ≤ length work.old }
    ensures { work.new ≡ cleared_from out work.old }
{
    work[out..].fill(0);
}

// A value that was built from `out` on, or had no room: then what was built of it goes.
pub fn finish(placed: Option<usize>, work: &mut [u32], out: usize) -> Option<usize>
    requires { out ≤ length work.old }
    ensures { (result ≡ placed) × (work.new ≡ finished out placed work.old) }
{
    if placed.is_none() {
        clear_from(work, out);
    }
    placed
}
