//! What the definitions of `specs/` say of some numbers.

ghost use Rattle.std.specs.Prelude.{◌≡◌, ◌-◌, ◌+◌, ◌^◌, [], ◌∷◌, ◌++◌, codes, length};
ghost use Rattle.fmp4_c.specs.Engines.{Run, free_in, step_of};
ghost use Rattle.fmp4_c.specs.Portions.{portion_of};

/// Worked examples of how many bytes of an input are taken.
pub fn worked_portions()
    ensures free { (r : Run) → length r.waiting.bytes ≡ 1000 → free_in 131072 r ≡ 130072 }
    ensures none_free { (r : Run) → length r.waiting.bytes ≡ 1000 → free_in 999 r ≡ 0 }
    ensures share { step_of 128 195608 ≡ 1528 }
    ensures least { step_of 128 127 ≡ 1 }
    ensures most { step_of 128 (2 ^ 64 + 1000) ≡ 144115188075855871 }
    ensures whole { step_of 0 127 ≡ 2 ^ 64 - 1 }
    ensures mdats { let box = 0 ∷ 0 ∷ 0 ∷ 8 ∷ codes "mdat" in portion_of (box ++ box ++ box) 0 20 ≡ 16 }
    ensures after_a_body { let box = 0 ∷ 0 ∷ 0 ∷ 8 ∷ codes "mdat" in
        portion_of (7 ∷ 7 ∷ 7 ∷ 7 ∷ 7 ∷ box ++ box) 5 14 ≡ 13 }
    ensures moof { let box = 0 ∷ 0 ∷ 0 ∷ 8 ∷ codes "moof" in portion_of (7 ∷ 7 ∷ box ++ box) 2 11 ≡ 2 }
    ensures no_box { portion_of (7 ∷ 7 ∷ 7 ∷ 7 ∷ []) 0 3 ≡ 3 }
    ensures body { portion_of (7 ∷ 7 ∷ 7 ∷ 7 ∷ []) 9 3 ≡ 3 }
    ensures all { portion_of (7 ∷ 7 ∷ 7 ∷ 7 ∷ []) 2 4 ≡ 4 }
{}
