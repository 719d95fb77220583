//! A pile by the list of its layers.
ghost use Rattle.std.specs.Prelude.{◌≡◌, ℕ, suc, ◌≤◌, ◌↔◌, map, length};
ghost use Rattle.pile.specs.Piles.{By, pile_verdict, pile_reading};
ghost use Rattle.validator.specs.Verdicts.{Outcome};
ghost use Rattle.checkline.specs.Bottoms.{bottom_verdict};
ghost use Rattle.checkline.specs.Layers.{named};
ghost use Rattle.checkline.specs.Spelled.{most_layers};

use crate::bottom::Bottom;
use crate::layers::{Layer, Layered};
use fault::Fault;
use pile::judge;
use validator::validator::Validator;

// What layers over a bottom say of the bytes, the outermost first.
pub(crate) fn judge_pile(layers: &[Layer], bottom: Bottom, bytes: &[u8]) -> Result<(), Fault>
    requires { length layers.now ≤ most_layers }
    ensures answer { result ≡ pile_verdict (map named layers.now) (bottom_verdict bottom) bytes.now }
    ensures reads { (o : Outcome) → (result ≡ o) ↔ pile_reading (map named layers.now) (By (bottom_verdict bottom)) bytes.now o }
{
    Eight::judge_over(layers, &bottom, bytes)
}

// As many types as there may be layers.
type Eight = More<More<More<More<More<More<More<More<Zero>>>>>>>>;

// A number of layers, as a type: the type of a pile has to end somewhere. Kept by hand: no recursion is
// covered yet that makes a `&dyn Validator` of its own, nor a validator that leads back to itself.
trait Most {
    ghost most: { ℕ };

    // What at most so many layers over a validator say of the bytes.
    fn judge_over<V: Validator>(layers: &[Layer], below: &V, bytes: &[u8]) -> Result<(), Fault>
        requires { length layers.now ≤ most }
        ensures { result ≡ pile_verdict (map named layers.now) (V.Validator.verdict below.now) bytes.now };
}

struct Zero;

impl Most for Zero {
    ghost most = { 0 };

    fn judge_over<V: Validator>(_layers: &[Layer], below: &V, bytes: &[u8]) -> Result<(), Fault> {
        judge(below, bytes)
    }
}

// One more.
struct More<N>(N);

impl<N: Most> Most for More<N> {
    ghost most = { suc N.Most.most };

    fn judge_over<V: Validator>(layers: &[Layer], below: &V, bytes: &[u8]) -> Result<(), Fault> {
        match layers {
            [outer @ .., innermost] => {
                let layered = Layered {
                    layer: *innermost,
                    below,
                };
                N::judge_over(outer, &layered, bytes)
            }
            [] => judge(below, bytes),
        }
    }
}
