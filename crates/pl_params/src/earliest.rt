ghost use Rattle.std.specs.Prelude.{◌≡◌};
ghost use Rattle.pl_params.specs.Earliest.{is_before, earlier};

use pl_base::Place;

/// What stands at a place.
pub trait Placed {
    ghost use Rattle.std.specs.Prelude.{◌≡◌};
    ghost use Rattle.pl_base.specs.declared.place.Place.{Place};

    ghost place: { Self → Place };

    /// Where it stands.
    fn stands_at(&self) -> &Place
        ensures { result.now ≡ place self.now };
}

/// Whether a place is before another one of its file.
pub fn is_before(left: &Place, right: &Place) -> bool
    ensures { result ≡ is_before left.now right.now }
{
    left.line < right.line || (left.line == right.line && left.col < right.col)
}

/// Of two the one at the earlier place, at one place the first.
pub fn earlier<T: Placed + Drop>(first: Option<T>, next: Option<T>) -> Option<T>
    ensures { result ≡ earlier T.place first next }
{
    let Some(first) = first else {
        return next;
    };
    let Some(next) = next else {
        return Some(first);
    };
    if is_before(next.stands_at(), first.stands_at()) {
        Some(next)
    } else {
        Some(first)
    }
}
