//! What the definitions of a stream's reading imply, in the terms of how headers are written (ISO/IEC 14496-12, 4.2).

ghost use Rattle.std.specs.Prelude.{◌≡◌, ◌↔◌, ◌+◌, ◌≤◌, ◌++◌, ◌∷◌, List, ℕ, length, take};
ghost use Rattle.mp4_box.specs.Headers.{IsBytes};
ghost use Rattle.mp4_machine.specs.Bodies.{longest};
ghost use Rattle.mp4_machine.specs.Readings.{Request, GrowsTo, Reading, after, most_of};
ghost use Rattle.mp4_boxes.specs.Boxes.{listing, reading};
ghost use Rattle.mp4_boxes.specs.HeldBoxes.{HoldsAtMost};
ghost use Rattle.mp4_boxes.specs.Joined.{AreSound, Item, joined, boxes_effects};
ghost use Rattle.mp4_boxes.specs.Rests.{IsRest, Split};

/// Each stream is whole boxes that break no rule, one after the other, and then one of the rests that `IsRest` names:
/// nothing, a box that is cut, that goes too far, that breaks a rule, or that goes to the end of the stream. It is
/// read as these boxes' lines, and then as the rest says.
pub fn every_stream()
    ensures { (b : List ℕ) → IsBytes b → (s : Split 0 b) ×
        (reading 0 b ≡ after (boxes_effects 0 s.boxes) s.reading) }
{}

/// Whole boxes that break no rule have their output one after the other, a moov or moof by its tree and each other
/// by its line, and the bytes after them are read as if they came first.
pub fn whole_boxes()
    ensures { (bs : List Item) (at : ℕ) (later : List ℕ) →
        AreSound at bs → at + length (joined bs) ≤ longest →
        reading at (joined bs ++ later) ≡ after (boxes_effects at bs)
        (reading (at + length (joined bs)) later) }
{}

/// Each rest is read as it says.
pub fn each_rest()
    ensures { (at : ℕ) (y : List ℕ) (r : Reading) → IsBytes y → IsRest at y r → reading at y ≡ r }
{}

/// More bytes extend the output of fewer, and a fault that these decide is that of every stream
/// that begins with them.
pub fn more_bytes()
    ensures { (at : ℕ) (b later : List ℕ) → GrowsTo (reading at b) (reading at (b ++ later)) }
{}

/// Where a box requests memory, the lines before the request are exactly those of the bytes before the box.
pub fn lines_before()
    ensures { (b : List ℕ) (before : List Request) (a : Request) (later : List Request) →
        (reading 0 b).effects.requests ≡ before ++ a ∷ later →
        take a.text_before (listing b) ≡ listing (take a.at b) }
{}

/// The most that a stream requests is the size of its largest moov or moof that is held. Before such a box are whole
/// boxes that break no rule; its header is good, and states no more than it may have.
pub fn requests_are_held_boxes()
    ensures { (b : List ℕ) (most : ℕ) → IsBytes b →
        (most_of (reading 0 b).effects ≤ most) ↔ HoldsAtMost 0 b most }
{}
