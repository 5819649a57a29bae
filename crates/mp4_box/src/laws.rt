//! What the definitions of headers, of trees and of the order of faults imply.

ghost use Rattle.std.specs.Prelude.{◌≡◌, ◌⊎◌, ◌+◌, ◌<◌, ◌++◌, List, ℕ, [], length, Some, None};
ghost use Rattle.mp4_box.specs.Order.{IsLeast, least};
ghost use Rattle.mp4_box.specs.declared.rules.Fault.{Fault};
ghost use Rattle.std.specs.List.{concat, flat_map, AllByRecursion};
ghost use Rattle.mp4_box.specs.declared.headers.Header.{Header};
ghost use Rattle.mp4_box.specs.Headers.{Head, IsBytes, IsWhole};
ghost use Rattle.mp4_box.specs.Trees.{Box, boxes, over};
ghost use Rattle.mp4_box.specs.Grammar.{AreBoxes, NoBox};

/// A header has one spelling.
pub fn one_spelling()
    ensures { (h : Header) (x y : List ℕ) → Head h x → Head h y → x ≡ y }
{}

/// No header is the beginning of another.
pub fn no_prefix()
    ensures { (h k : Header) (x more : List ℕ) → Head h x → Head k (x ++ more) → (more ≡ []) ×
        (h ≡ k) }
{}

/// The boxes of a payload that is a join of whole boxes are these boxes, each at its offset.
pub fn children_lie()
    ensures { (xs : List (List ℕ)) (offset : ℕ) → AllByRecursion IsWhole xs → AreBoxes offset xs
        (boxes offset (concat xs)) }
{}

/// Bytes are a join of whole boxes and a rest that is empty or begins with no whole box.
pub fn boxes_and_rest()
    ensures { (x : List ℕ) → IsBytes x → (xs : List (List ℕ)) × (y : List ℕ) × (concat xs ++ y ≡ x)
        × AllByRecursion IsWhole xs × ((y ≡ []) ⊎ ((0 < length y) × NoBox y)) }
{}

/// Going over such bytes finds exactly these boxes, each at its offset, and then
/// of the rest.
pub fn boxes_are_gone_over()
    ensures whole { (f : Box → List Fault) (g : ℕ → List ℕ → List Fault) (xs : List (List ℕ))
        (offset : ℕ) → AllByRecursion IsWhole xs → (bs : List Box) × AreBoxes offset xs bs ×
        (over f g (concat xs) 0 offset ≡ flat_map f bs) }
    ensures rest { (f : Box → List Fault) (g : ℕ → List ℕ → List Fault) (xs : List (List ℕ))
        (y : List ℕ) (offset : ℕ) → AllByRecursion IsWhole xs → IsBytes y → 0 < length y → NoBox y →
        (bs : List Box) × AreBoxes offset xs bs ×
        (over f g (concat xs ++ y) 0 offset ≡ flat_map f bs ++ g (offset + length (concat xs)) y) }
{}

/// The fault that is kept of a list is one of the list, and none of the list comes before it; none is kept of
/// an empty list alone.
pub fn least_is_first()
    ensures some { (fs : List Fault) (f : Fault) → least fs ≡ Some f → IsLeast f fs }
    ensures none { (fs : List Fault) → least fs ≡ None → fs ≡ [] }
{}
