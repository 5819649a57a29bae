//! What some whole command lines ask for.
ghost use Rattle.std.specs.Prelude.{◌≡◌, ◌≤◌, ◌<◌, ◌^◌, ◌⊎◌, ℕ, List, [], ◌∷◌, Some, None, true, false, codes, decimal};
ghost use Rattle.fmp4_program.specs.Words.{command_of};

use crate::asked::Invocation;

/// Worked examples of the definition of a command line.
pub fn worked_words()
    ensures default_copy { command_of (codes "fmp4" ∷ codes "boxes" ∷ []) ≡ Some
        (Invocation.Boxes (record { copy = 65536; max_held = 536870912 })) }
    ensures least_copy { command_of (codes "fmp4" ∷ codes "boxes" ∷ codes "--copy" ∷ codes "4096" ∷
        []) ≡ Some (Invocation.Boxes (record { copy = 4096; max_held = 536870912 })) }
    ensures signed_copy { command_of (codes "fmp4" ∷ codes "boxes" ∷ codes "--copy" ∷ codes "+65536"
        ∷ []) ≡ Some (Invocation.Boxes (record { copy = 65536; max_held = 536870912 })) }

    ensures copy_too_small { command_of (codes "fmp4" ∷ codes "boxes" ∷ codes "--copy" ∷ codes
        "4095" ∷ []) ≡ None }
    ensures copy_too_large { command_of (codes "fmp4" ∷ codes "boxes" ∷ codes "--copy" ∷ codes
        "1048577" ∷ []) ≡ None }

    ensures least_held { command_of (codes "fmp4" ∷ codes "boxes" ∷ codes "--max-held" ∷ codes "1" ∷
        []) ≡ Some (Invocation.Boxes (record { copy = 65536; max_held = 1 })) }
    ensures greatest_held { command_of (codes "fmp4" ∷ codes "boxes" ∷ codes "--max-held" ∷ codes
        "4611686018427387904" ∷ []) ≡ Some
        (Invocation.Boxes (record { copy = 65536; max_held = 2 ^ 62 })) }
    ensures both_options { command_of (codes "fmp4" ∷ codes "boxes" ∷ codes "--max-held" ∷ codes
        "65880" ∷ codes "--copy" ∷ codes "4096" ∷ []) ≡ Some
        (Invocation.Boxes (record { copy = 4096; max_held = 65880 })) }
    ensures held_too_small { command_of (codes "fmp4" ∷ codes "boxes" ∷ codes "--max-held" ∷ codes
        "0" ∷ []) ≡ None }
    ensures held_too_large { command_of (codes "fmp4" ∷ codes "boxes" ∷ codes "--max-held" ∷ codes
        "4611686018427387905" ∷ []) ≡ None }

    ensures no_command { command_of (codes "fmp4" ∷ []) ≡ None }
    ensures samples { command_of (codes "fmp4" ∷ codes "samples" ∷ codes "--copy" ∷ codes "4096" ∷
        []) ≡ Some (Invocation.Samples (record { copy = 4096; max_held = 536870912 })) }
    ensures fragments { command_of (codes "fmp4" ∷ codes "fragments" ∷ codes "--copy" ∷ codes "4096" ∷
        []) ≡ Some (Invocation.Fragments (record { copy = 4096; max_held = 536870912 })) }
    ensures cut_fragments { command_of (codes "fmp4" ∷ codes "fragments" ∷ codes "--samples" ∷ codes "5" ∷
        []) ≡ None }
    ensures check { command_of (codes "fmp4" ∷ codes "check" ∷ codes "--max-held" ∷ codes "1" ∷
        []) ≡ Some (Invocation.Check (record { copy = 65536; max_held = 1 })) }
    ensures other_command { command_of (codes "fmp4" ∷ codes "tracks" ∷ []) ≡ None }
    ensures sync { command_of (codes "fmp4" ∷ codes "samples" ∷ codes "--sync" ∷ []) ≡ None }
    ensures index { command_of (codes "fmp4" ∷ codes "check" ∷ codes "--index" ∷ []) ≡ None }
    ensures other_option { command_of (codes "fmp4" ∷ codes "boxes" ∷ codes "--samples" ∷ codes "5"
        ∷ []) ≡ None }
    ensures split { command_of (codes "fmp4" ∷ codes "split" ∷ codes "--samples" ∷ codes "2" ∷
        []) ≡ Some (Invocation.Split (record { copy = 65536; max_held = 536870912 })
        (record { samples = 2; bytes = None; duration = None; index = false; sync = false; keyframes = false })) }
    ensures split_index { command_of (codes "fmp4" ∷ codes "split" ∷ codes "--samples" ∷ codes "2" ∷ codes "--index" ∷
        []) ≡ Some (Invocation.Split (record { copy = 65536; max_held = 536870912 })
        (record { samples = 2; bytes = None; duration = None; index = true; sync = false; keyframes = false })) }
    ensures split_sync { command_of (codes "fmp4" ∷ codes "split" ∷ codes "--samples" ∷ codes "9" ∷ codes "--sync" ∷
        []) ≡ Some (Invocation.Split (record { copy = 65536; max_held = 536870912 })
        (record { samples = 9; bytes = None; duration = None; index = false; sync = true; keyframes = false })) }
    ensures split_all { command_of (codes "fmp4" ∷ codes "split" ∷ codes "--sync" ∷ codes "--bytes" ∷ codes "10" ∷
        codes "--index" ∷ codes "--max-held" ∷ codes "65944" ∷ codes "--samples" ∷ codes "9" ∷ codes "--copy" ∷
        codes "4096" ∷ []) ≡ Some (Invocation.Split (record { copy = 4096; max_held = 65944 })
        (record { samples = 9; bytes = Some 10; duration = None; index = true; sync = true; keyframes = false })) }
    ensures split_least { command_of (codes "fmp4" ∷ codes "split" ∷ codes "--samples" ∷ codes "1" ∷ codes "--bytes" ∷
        codes "1" ∷ []) ≡ Some (Invocation.Split (record { copy = 65536; max_held = 536870912 })
        (record { samples = 1; bytes = Some 1; duration = None; index = false; sync = false; keyframes = false })) }
    ensures split_most { command_of (codes "fmp4" ∷ codes "split" ∷ codes "--samples" ∷ codes "1000000" ∷
        codes "--bytes" ∷ codes "4611686018427387904" ∷ []) ≡ Some (Invocation.Split
        (record { copy = 65536; max_held = 536870912 })
        (record {
          samples = 1000000;
          bytes = Some (2 ^ 62);
          duration = None;
          index = false;
          sync = false;
          keyframes = false;
        })) }
    ensures split_without_samples { command_of (codes "fmp4" ∷ codes "split" ∷ codes "--bytes" ∷ codes "10" ∷ []) ≡
        None }
    ensures split_duration { command_of (codes "fmp4" ∷ codes "split" ∷ codes "--duration" ∷ codes "500" ∷ []) ≡
        Some (Invocation.Split (record { copy = 65536; max_held = 536870912 })
        (record {
          samples = 1000000;
          bytes = None;
          duration = Some 500;
          index = false;
          sync = false;
          keyframes = false;
        })) }
    ensures split_duration_and_samples { command_of (codes "fmp4" ∷ codes "split" ∷ codes "--samples" ∷ codes "2" ∷
        codes "--duration" ∷ codes "4294967295" ∷ []) ≡
        Some (Invocation.Split (record { copy = 65536; max_held = 536870912 })
        (record {
          samples = 2;
          bytes = None;
          duration = Some 4294967295;
          index = false;
          sync = false;
          keyframes = false;
        })) }
    ensures split_keyframes { command_of (codes "fmp4" ∷ codes "split" ∷ codes "--keyframes" ∷ codes "--samples" ∷
        codes "9" ∷ []) ≡ Some (Invocation.Split (record { copy = 65536; max_held = 536870912 })
        (record { samples = 9; bytes = None; duration = None; index = false; sync = false; keyframes = true })) }
    ensures split_keyframes_alone { command_of (codes "fmp4" ∷ codes "split" ∷ codes "--keyframes" ∷ []) ≡ None }
    ensures split_keyframes_and_sync { command_of (codes "fmp4" ∷ codes "split" ∷ codes "--samples" ∷ codes "9" ∷
        codes "--keyframes" ∷ codes "--sync" ∷ []) ≡ None }
    ensures split_no_duration { command_of (codes "fmp4" ∷ codes "split" ∷ codes "--duration" ∷ codes "0" ∷ []) ≡ None }
    ensures split_too_long { command_of (codes "fmp4" ∷ codes "split" ∷ codes "--duration" ∷ codes "4294967296" ∷ []) ≡
        None }
    ensures split_without_number { command_of (codes "fmp4" ∷ codes "split" ∷ codes "--samples" ∷ []) ≡ None }
    ensures split_no_samples { command_of (codes "fmp4" ∷ codes "split" ∷ codes "--samples" ∷ codes "0" ∷ []) ≡ None }
    ensures split_too_many_samples { command_of (codes "fmp4" ∷ codes "split" ∷ codes "--samples" ∷ codes "1000001" ∷
        []) ≡ None }
    ensures split_no_bytes { command_of (codes "fmp4" ∷ codes "split" ∷ codes "--samples" ∷ codes "2" ∷
        codes "--bytes" ∷ codes "0" ∷ []) ≡ None }
    ensures split_too_many_bytes { command_of (codes "fmp4" ∷ codes "split" ∷ codes "--samples" ∷ codes "2" ∷
        codes "--bytes" ∷ codes "4611686018427387905" ∷ []) ≡ None }
    ensures split_samples_again { command_of (codes "fmp4" ∷ codes "split" ∷ codes "--samples" ∷ codes "2" ∷
        codes "--samples" ∷ codes "3" ∷ []) ≡ None }
    ensures split_index_again { command_of (codes "fmp4" ∷ codes "split" ∷ codes "--samples" ∷ codes "2" ∷
        codes "--index" ∷ codes "--index" ∷ []) ≡ None }
    ensures split_copy_too_small { command_of (codes "fmp4" ∷ codes "split" ∷ codes "--samples" ∷ codes "2" ∷
        codes "--copy" ∷ codes "4095" ∷ []) ≡ None }
    ensures split_held_too_small { command_of (codes "fmp4" ∷ codes "split" ∷ codes "--samples" ∷ codes "2" ∷
        codes "--max-held" ∷ codes "0" ∷ []) ≡ None }
    ensures bytes_of_samples { command_of (codes "fmp4" ∷ codes "samples" ∷ codes "--bytes" ∷ codes "10" ∷ []) ≡ None }
    ensures help { command_of (codes "fmp4" ∷ codes "--help" ∷ []) ≡ None }
{}

/// For every size of the copy buffer, in decimal digits: the words ask for one that is in the
/// range, and any other gives no command. The program may be called anything.
pub fn every_copy_size()
    ensures inside { (program : List ℕ) → (copy : ℕ) → 4096 ≤ copy → copy ≤ 1048576 → command_of
        (program ∷ codes "boxes" ∷ codes "--copy" ∷ decimal copy ∷ []) ≡ Some
        (Invocation.Boxes (record { copy = copy; max_held = 536870912 })) }
    ensures outside { (program : List ℕ) → (copy : ℕ) → copy < 2 ^ 64 → (copy < 4096) ⊎
        (1048576 < copy) → command_of (program ∷ codes "boxes" ∷ codes "--copy" ∷ decimal copy ∷ [])
        ≡ None }
{}
