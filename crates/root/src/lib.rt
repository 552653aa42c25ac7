// The square root of a double, correctly rounded.
#![tactic(auto)]

ghost use Rattle.std.specs.Prelude.{◌≡◌};
ghost use Rattle.root.specs.Root.{root_of};

// The square root of x: the library's, whose bits are `root_of`'s at every double.
#[tactic(auto, using(crate::proofs::Library::is_sqrt))]
pub fn root(x: f64) -> f64
    ensures { result ≡ root_of x }
{
    x.sqrt()
}
