//! What the definitions of a stream's readings imply: those of its boxes, and of its fragments by several commands.

ghost use Rattle.std.specs.Prelude.{◌≡◌, [], List, ℕ, map};
ghost use Rattle.mp4_grammar.specs.WithoutText.{request_without_text};
ghost use Rattle.mp4_grammar.specs.declared.command.Command.TheVariants.{Check, Fragments, Samples};
ghost use Rattle.mp4_machine.specs.Readings.{most_of};
ghost use Rattle.mp4_recut.specs.Operations.{reads_of};
ghost use Rattle.mp4_recut.specs.declared.operation.Operation.TheVariants as operations;

pub use mp4_boxes::laws::{
    each_rest, every_stream, lines_before, more_bytes, requests_are_held_boxes, whole_boxes,
};

/// `check` returns what `samples` does, whatever the stream: it finds the same fault or none, and counts and claims the
/// same. It writes no text.
pub fn check_is_samples_without_text()
    ensures outcome { (b : List ℕ) →
        (reads_of (operations.List Check) b).outcome ≡ (reads_of (operations.List Samples) b).outcome }
    ensures tally { (b : List ℕ) →
        (reads_of (operations.List Check) b).effects.tally ≡ (reads_of (operations.List Samples) b).effects.tally }
    ensures requests { (b : List ℕ) → (reads_of (operations.List Check) b).effects.requests ≡
        map request_without_text (reads_of (operations.List Samples) b).effects.requests }
    ensures most { (b : List ℕ) → most_of (reads_of (operations.List Check) b).effects ≡
        most_of (reads_of (operations.List Samples) b).effects }
    ensures text { (b : List ℕ) → (reads_of (operations.List Check) b).effects.text ≡ [] }
{}

/// And it returns what `fragments` does, likewise.
pub fn check_is_fragments_without_text()
    ensures outcome { (b : List ℕ) →
        (reads_of (operations.List Check) b).outcome ≡ (reads_of (operations.List Fragments) b).outcome }
    ensures tally { (b : List ℕ) → (reads_of (operations.List Check) b).effects.tally ≡
        (reads_of (operations.List Fragments) b).effects.tally }
    ensures requests { (b : List ℕ) → (reads_of (operations.List Check) b).effects.requests ≡
        map request_without_text (reads_of (operations.List Fragments) b).effects.requests }
    ensures most { (b : List ℕ) → most_of (reads_of (operations.List Check) b).effects ≡
        most_of (reads_of (operations.List Fragments) b).effects }
{}
