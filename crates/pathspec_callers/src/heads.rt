//! A caller of the heads of `pathspec_heads`.
ghost use Rattle.std.specs.Prelude.{◌≡◌, ◌<◌, ℕ, List, length, true};
ghost use Rattle.pathspec_glob.specs.Bytes.{begins_with};
ghost use Rattle.pathspec_heads.specs.Heads.{head_at};
ghost use Rattle.pathspec_heads.specs.Groups.{IsGrouped, IsLeastFrom};

use pathspec_heads::places::{CompareScratch, PlacesByHead};

/// The first place whose head begins a path, of the heads that the places were made from.
pub fn first_place(
    places: &PlacesByHead,
    scratch: &mut CompareScratch,
    path: &[u8],
) -> Option<usize>
    ensures { (heads : List (List ℕ))
        → IsGrouped heads places.now.heads places.now.starts places.now.order
        → IsLeastFrom (λ p. (p < length heads)
        × (begins_with path.now (head_at heads p) ≡ true)) 0 result }
{
    match places.longest_head_of(path, scratch).head {
        Some(head) => places.next_place(head, 0),
        None => None,
    }
}
