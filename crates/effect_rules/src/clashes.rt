ghost use Rattle.std.specs.Prelude.{◌≡◌};
ghost use Rattle.c_typed.specs.Rules as r;

/// Whether an object is among these.
pub fn has(objects: &[u32], object: u32) -> bool
    ensures { result ≡ r.has objects.now object }
{
    objects.iter().any(|x| object == *x)
}

// Whether two lists have an object in common.
fn meets(xs: &[u32], ys: &[u32]) -> bool
    ensures { result ≡ r.meets xs.now ys.now }
{
    xs.iter().any(|x| has(ys, *x))
}

/// Whether one of two parts writes what the other reads or writes, by what each writes and reads.
#[tactic(auto, using(crate::proofs::Bools::meets_right))]
pub fn clash(writes_a: &[u32], reads_a: &[u32], writes_b: &[u32], reads_b: &[u32]) -> bool
    ensures { result ≡ r.clash writes_a.now reads_a.now writes_b.now reads_b.now }
{
    meets(writes_a, writes_b) || meets(writes_a, reads_b) || meets(writes_b, reads_a)
}
