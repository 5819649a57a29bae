//! What the definitions of a fragmented stream's reading imply.

ghost use Rattle.std.specs.Prelude.{◌≡◌, ◌+◌, ◌-◌, ◌*◌, ◌^◌, ◌<◌, ◌≤◌, ◌++◌, ◌∷◌, [], List, ℕ, Some, None, true, false, codes, drop, length, map, pos, negsuc, take};
ghost use Rattle.std.specs.Int.{bytes_high_first};
ghost use Rattle.std.specs.List.{AllByRecursion, flat_map, sum_by};
ghost use Rattle.mp4_box.specs.Fields.{number_in};
ghost use Rattle.mp4_box.specs.Headers.{IsBytes};
ghost use Rattle.mp4_box.specs.Paths.{at_path, of_kind};
ghost use Rattle.mp4_box.specs.Trees.{Box, boxes, children, first_of};
ghost use Rattle.mp4_box.specs.declared.headers.Header.{Header};
ghost use Rattle.mp4_box.specs.declared.headers.Size.TheVariants.{Exact, ToEnd};
ghost use Rattle.mp4_init.specs.Kinds.{hdlr, mdia, minf, stbl, stsd, trak};
ghost use Rattle.mp4_init.specs.Tracks.{entries_of, id_of, timescale_of, track_of};
ghost use Rattle.mp4_init.specs.declared.table.Track.{Track};
ghost use Rattle.mp4_frag.specs.Moofs.{moof_trafs, sequence_of};
ghost use Rattle.mp4_traf.specs.CompositionTimes.{IsLeastOf, composition_times};
ghost use Rattle.mp4_traf.specs.Kinds.{tfdt};
ghost use Rattle.mp4_traf.specs.Rows.{durations, sizes};
ghost use Rattle.mp4_traf.specs.Rules.{track_with};
ghost use Rattle.mp4_traf.specs.Runs.{tfhd_of};
ghost use Rattle.mp4_traf.specs.Tfdt.{base_media_decode_time};
ghost use Rattle.mp4_traf.specs.Tfhd.{track_id};
ghost use Rattle.mp4_traf.specs.TrafTotals.{totals_of};
ghost use Rattle.mp4_machine.specs.Bodies.{longest};
ghost use Rattle.mp4_machine.specs.Readings.{Request, GrowsTo, Reading, after, most_of};
ghost use Rattle.mp4_grammar.specs.AcceptedFragments.{AreFragmentRecords, AreRecords, IsAccepted, IsTrack};
ghost use Rattle.mp4_grammar.specs.Commands.{command_meaning, reading};
ghost use Rattle.mp4_grammar.specs.Contexts.{Context, first_context};
ghost use Rattle.mp4_grammar.specs.Counts.{InspectsOn};
ghost use Rattle.mp4_grammar.specs.FragmentLines.{fragment_lines, listed_traf, presented_at, traf_line};
ghost use Rattle.mp4_grammar.specs.HeldSizes.{HoldsWithin};
ghost use Rattle.mp4_grammar.specs.Items.{fragment, reads_in};
ghost use Rattle.mp4_grammar.specs.Joined.{AreSound, IsSound, Item, MovieFragment, OneBox, context_after_all, fragment_in, joined, items_effects, tracks_in};
ghost use Rattle.mp4_grammar.specs.Kinds.{most_moof, most_moov};
ghost use Rattle.mp4_grammar.specs.LinesByRows.{first_is_sync, line_of, rows_in, traf_boxes, traf_in};
ghost use Rattle.mp4_grammar.specs.Meanings.{Fragment, Meaning, counted_in};
ghost use Rattle.mp4_grammar.specs.Rests.{IsRest, Split};
ghost use Rattle.mp4_grammar.specs.Presented.{earliest_in, syncs_in};
ghost use Rattle.mp4_grammar.specs.TrackLines.{kind_of, kinds_of, listed_track, track_front, track_line, track_lines, types_text};
ghost use Rattle.mp4_grammar.specs.TrafRecords.{IsRecord, fragment_records, record_bytes, record_with, traf_record};
ghost use Rattle.mp4_grammar.specs.WithoutText.{IsWithoutText, without_text};
ghost use Rattle.mp4_grammar.specs.declared.command.Command.{Command};
ghost use Rattle.mp4_grammar.specs.declared.command.Command.TheVariants.{Records};

/// Each stream is whole items that break no rule, one after the other, and then one of the rests that `IsRest` names:
/// nothing, or a box or a fragment that is cut, that goes too far, that breaks a rule, or that goes to the end of the
/// stream. It is read as these items say, and then as the rest says, for each operation.
pub fn every_stream()
    ensures { (meaning : Meaning) (b : List ℕ) → IsBytes b → (s : Split meaning first_context b) ×
        (reads_in meaning first_context b ≡ after (items_effects meaning first_context s.items) s.reading) }
{}

/// Whole items that break no rule have their effects one after the other, and the bytes after them are read in the
/// context after them: a moov makes the tracks known, and a fragment settles where they end.
pub fn whole_items()
    ensures { (meaning : Meaning) (c : Context) (is : List Item) (later : List ℕ) →
        AreSound meaning c is → c.at + length (joined is) ≤ longest →
        reads_in meaning c (joined is ++ later) ≡ after (items_effects meaning c is)
        (reads_in meaning (context_after_all meaning c is) later) }
{}

/// Each rest is read as it says.
pub fn each_rest()
    ensures { (meaning : Meaning) (c : Context) (y : List ℕ) (r : Reading) → IsBytes y →
        IsRest meaning c y r → reads_in meaning c y ≡ r }
{}

/// More bytes extend the output of fewer, and a fault that these decide is that of every stream
/// that begins with them.
pub fn more_bytes()
    ensures { (command : Command) (b later : List ℕ) →
        GrowsTo (reading command b) (reading command (b ++ later)) }
{}

/// Where a box requests memory, the text before the request is exactly that of the bytes before the box. So are the
/// counts, except that the samples of a moof are inspected before a list of its runs is requested.
pub fn lines_before()
    ensures text { (command : Command) (b : List ℕ) (before : List Request) (a : Request)
        (later : List Request) → (reading command b).effects.requests ≡ before ++ a ∷ later →
        take a.text_before (reading command b).effects.text ≡ (reading command (take a.at b)).effects.text }
    ensures counted { (command : Command) (b : List ℕ) (before : List Request) (a : Request)
        (later : List Request) → (reading command b).effects.requests ≡ before ++ a ∷ later →
        InspectsOn (reading command (take a.at b)).effects.tally a.counted }
{}

/// A moov may have 16 MiB, and a moof 64 MiB.
pub fn limits()
    ensures moov { most_moov ≡ 2 ^ 24 }
    ensures moof { most_moof ≡ 2 ^ 26 }
{}

/// No stream requests more than a table as large as the largest moov, the largest moof and a list of its runs, which
/// takes at most four times its bytes.
pub fn requests_bound()
    ensures { (command : Command) (b : List ℕ) → IsBytes b →
        most_of (reading command b).effects ≤ most_moov + 5 * most_moof }
{}

/// No stream requests more than twice the bytes of its largest moov and five times those of its largest moof: the table
/// of the tracks takes no more than the moov, and a list of runs no more than four times its moof. These are boxes that
/// are asked for: whole items that break no rule come before, and their header is good and states no more than they may
/// have.
pub fn requests_within()
    ensures { (command : Command) (b : List ℕ) (moov moof : ℕ) → IsBytes b →
        HoldsWithin (command_meaning command) first_context b moov moof →
        most_of (reading command b).effects ≤ 2 * moov + 5 * moof }
{}

/// The lines of a fragment's trafs have all that is counted of it: their samples are its samples, and their media its
/// media. So have the totals of the trafs.
pub fn trafs_have_all_that_is_counted()
    ensures samples { (f : Fragment) → sum_by (λ t. (listed_traf f t).samples)
        (moof_trafs f.moof f.tracks) ≡ (counted_in f).samples }
    ensures media { (f : Fragment) → sum_by (λ t. (listed_traf f t).media)
        (moof_trafs f.moof f.tracks) ≡ (counted_in f).media_bytes }
    ensures totals { (f : Fragment) →
        (sum_by (λ t. (totals_of t).samples) (moof_trafs f.moof f.tracks) ≡ (counted_in f).samples) ×
        (sum_by (λ t. (totals_of t).bytes) (moof_trafs f.moof f.tracks) ≡ (counted_in f).media_bytes) }
{}

/// A fragment has a line for each traf box of its moof, in order. Each has the sequence_number and the offset of the
/// moof, and as its size the bytes of the moof and of its mdat, or none where the mdat goes to the end of the stream.
pub fn fragments_have_a_line_for_each_traf()
    ensures lines { (f : Fragment) →
        fragment_lines f ≡ flat_map (λ b. traf_line (line_of f b)) (traf_boxes f) }
    ensures sequence { (f : Fragment) (b : Box) → (line_of f b).sequence ≡ sequence_of f.moof }
    ensures at { (f : Fragment) (b : Box) → (line_of f b).at ≡ f.moof.offset }
    ensures size { (c : Context) (tracks : List Track) (moof : List ℕ) (mdat : Header) (b : Box) (n : ℕ) →
        mdat.size ≡ Exact n → (line_of (fragment c tracks moof mdat) b).size ≡ Some (length moof + n) }
    ensures open { (c : Context) (tracks : List Track) (moof : List ℕ) (mdat : Header) (b : Box) →
        mdat.size ≡ ToEnd → (line_of (fragment c tracks moof mdat) b).size ≡ None }
{}

/// The line of a traf has the track_ID of its tfhd, and the time of its tfdt, or else that at which its track ended.
/// The rest is by the rows of its samples: how many there are, their durations and their sizes, added up, and whether
/// the first is that of a sync sample, how many are, and when the first of them is presented: at the least of their
/// composition times, or at its time where it has none. It has also the time at which its track ended before.
pub fn lines_have_what_their_trafs_have()
    ensures track { (f : Fragment) (b : Box) → (line_of f b).track ≡ track_id (tfhd_of b) }
    ensures own_time { (f : Fragment) (b : Box) (d : Box) → first_of (at_path (tfdt ∷ []) b) ≡ Some d →
        (line_of f b).time ≡ base_media_decode_time d.payload }
    ensures next_time { (f : Fragment) (b : Box) (t : Track) → first_of (at_path (tfdt ∷ []) b) ≡ None →
        track_with (track_id (tfhd_of b)) f.tracks ≡ Some t → (line_of f b).time ≡ t.next }
    ensures samples { (f : Fragment) (b : Box) → (line_of f b).samples ≡ length (rows_in f b) }
    ensures duration { (f : Fragment) (b : Box) → (line_of f b).duration ≡ durations (rows_in f b) }
    ensures media { (f : Fragment) (b : Box) → (line_of f b).media ≡ sizes (rows_in f b) }
    ensures sync { (f : Fragment) (b : Box) → (line_of f b).sync ≡ first_is_sync (rows_in f b) }
    ensures earliest { (f : Fragment) (b : Box) →
        (line_of f b).presented.earliest ≡ earliest_in (rows_in f b) }
    ensures presented { (f : Fragment) (b : Box) → 0 < length (rows_in f b) →
        IsLeastOf (composition_times (line_of f b).time (rows_in f b)) (presented_at (line_of f b)) }
    ensures unpresented { (f : Fragment) (b : Box) → rows_in f b ≡ [] →
        presented_at (line_of f b) ≡ pos (line_of f b).time }
    ensures syncs { (f : Fragment) (b : Box) → (line_of f b).presented.syncs ≡ syncs_in (rows_in f b) }
    ensures ended { (f : Fragment) (b : Box) (t : Track) →
        track_with (track_id (tfhd_of b)) f.tracks ≡ Some t → (line_of f b).ended ≡ t.next }
{}

/// The line of a track of a moov has the track_ID of its tkhd, the timescale of its mdhd, the entry_count of its stsd,
/// the handler_type of its hdlr, and the types of the boxes in its stsd, as many as it counts.
pub fn lines_have_what_their_tracks_have()
    ensures lines { (moov : Box) → track_lines moov ≡
        flat_map (λ b. track_line (track_of moov b) b) (of_kind trak (children moov)) }
    ensures id { (moov b : Box) → (listed_track (track_of moov b)).id ≡ id_of b }
    ensures timescale { (moov b : Box) → (listed_track (track_of moov b)).timescale ≡ timescale_of b }
    ensures entries { (moov b : Box) → (listed_track (track_of moov b)).entries ≡ entries_of b }
    ensures handler { (moov b h : Box) → first_of (at_path (mdia ∷ hdlr ∷ []) b) ≡ Some h →
        (listed_track (track_of moov b)).handler.0 ≡ bytes_high_first 4 (number_in h.payload 8) }
    ensures no_handler { (moov b : Box) → first_of (at_path (mdia ∷ hdlr ∷ []) b) ≡ None →
        (listed_track (track_of moov b)).handler.0 ≡ 0 ∷ 0 ∷ 0 ∷ 0 ∷ [] }
    ensures kinds { (b s : Box) → first_of (at_path (mdia ∷ minf ∷ stbl ∷ stsd ∷ []) b) ≡ Some s →
        kinds_of b ≡ take (number_in s.payload 4)
        (map (λ (e : Box). e.header.kind) (boxes 0 (drop 8 s.payload))) }
{}

/// A fragment has a record for each traf box of its moof, in order. Each has what the line has: 1 where this says that
/// the first sample is a sync sample, else 0; the largest size where the line has none; and what the line of its track
/// has: the timescale, the handler as a number, and how many sample entries there are.
pub fn records_have_what_their_lines_have()
    ensures records { (f : Fragment) → fragment_records f ≡
        flat_map (λ b. record_bytes (traf_record f (traf_in f b))) (traf_boxes f) }
    ensures place { (f : Fragment) (b : Box) → ((traf_record f (traf_in f b)).at ≡ (line_of f b).at) ×
        ((traf_record f (traf_in f b)).sequence ≡ (line_of f b).sequence) ×
        ((traf_record f (traf_in f b)).track ≡ (line_of f b).track) }
    ensures sums { (f : Fragment) (b : Box) → ((traf_record f (traf_in f b)).time ≡ (line_of f b).time) ×
        ((traf_record f (traf_in f b)).duration ≡ (line_of f b).duration) ×
        ((traf_record f (traf_in f b)).media ≡ (line_of f b).media) ×
        ((traf_record f (traf_in f b)).samples ≡ (line_of f b).samples) }
    ensures size { (f : Fragment) (b : Box) (n : ℕ) → (line_of f b).size ≡ Some n →
        (traf_record f (traf_in f b)).size ≡ n }
    ensures open { (f : Fragment) (b : Box) → (line_of f b).size ≡ None →
        (traf_record f (traf_in f b)).size ≡ 2 ^ 64 - 1 }
    ensures sync { (f : Fragment) (b : Box) → (line_of f b).sync ≡ true →
        (traf_record f (traf_in f b)).sync ≡ 1 }
    ensures no_sync { (f : Fragment) (b : Box) → (line_of f b).sync ≡ false →
        (traf_record f (traf_in f b)).sync ≡ 0 }
    ensures of_track { (f : Fragment) (b : Box) (t : Track) →
        track_with (track_id (tfhd_of b)) f.tracks ≡ Some t →
        ((traf_record f (traf_in f b)).timescale ≡ t.timescale) ×
        (kind_of (traf_record f (traf_in f b)).handler ≡ (listed_track t).handler) ×
        ((traf_record f (traf_in f b)).entries ≡ t.entries) }
    ensures shown { (f : Fragment) (b : Box) → ((traf_record f (traf_in f b)).ended ≡ (line_of f b).ended) ×
        ((traf_record f (traf_in f b)).earliest ≡ (line_of f b).presented.earliest) ×
        ((traf_record f (traf_in f b)).syncs ≡ (line_of f b).presented.syncs) }
{}

/// The numbers of a record have their 64 and 32 bits, for each traf of a fragment that is accepted.
pub fn records_fit_their_fields()
    ensures { (f : Fragment) → IsAccepted f →
        AllByRecursion (λ t. IsRecord (traf_record f t)) (moof_trafs f.moof f.tracks) }
{}

/// A fragment whose moof and mdat are whole and break no rule is accepted, for each operation. Such items leave the
/// numbers of the tracks in their bits; a stream begins without tracks.
pub fn sound_fragments_are_accepted()
    ensures accepted { (meaning : Meaning) (c : Context) (moof mdat : OneBox) → IsBytes (moof.bytes ++ mdat.bytes) →
        AllByRecursion IsTrack (tracks_in c) → IsSound meaning c (MovieFragment moof mdat) →
        c.at + length (moof.bytes ++ mdat.bytes) ≤ longest → IsAccepted (fragment_in c moof mdat) }
    ensures tracks { (meaning : Meaning) (c : Context) (is : List Item) → IsBytes (joined is) →
        AllByRecursion IsTrack (tracks_in c) → AreSound meaning c is → c.at + length (joined is) ≤ longest →
        AllByRecursion IsTrack (tracks_in (context_after_all meaning c is)) }
{}

/// The text of each stream that is listed by records is the records of fragments that are accepted: bytes of one record
/// after the other, each of which [`TrafRecord::of_bytes`](crate::TrafRecord::of_bytes) reads again.
pub fn each_stream_is_records()
    ensures fragments { (b : List ℕ) → IsBytes b → AreFragmentRecords (reading Records b).effects.text }
    ensures records { (b : List ℕ) → IsBytes b → AreRecords (reading Records b).effects.text }
{}

/// Worked lines: a traf whose numbers need more than 32 bits, one whose mdat goes to the end of the stream, that begins
/// with no sync sample and before its track ended, and a track.
pub fn worked_lines()
    ensures traf { traf_line (record {
      sequence = 7;
      at = 4294967660;
      size = Some 119;
      track = 2;
      time = 4294967301;
      duration = 3072;
      samples = 3;
      sync = true;
      media = 15;
      presented = record { earliest = pos 2048; syncs = 2 };
      ended = 5;
    }) ≡ codes "fragment=7 at=4294967660 size=119 track=2 dts=4294967301 dur=3072 samples=3 sync=yes media=15" ++
        codes " pts=4294969349 syncs=2 gap=4294967296\n" }
    ensures open { traf_line (record {
      sequence = 8;
      at = 364;
      size = None;
      track = 1;
      time = 4096;
      duration = 4294967296;
      samples = 1;
      sync = false;
      media = 4294967299;
      presented = record { earliest = negsuc 5119; syncs = 0 };
      ended = 4294967296;
    }) ≡ codes "fragment=8 at=364 size=end track=1 dts=4096 dur=4294967296 samples=1 sync=no media=4294967299" ++
        codes " pts=-1024 syncs=0 gap=-4294963200\n" }
    ensures track { track_front (record {
      id = 2;
      timescale = 90000;
      entries = 3;
      handler = record { 0 = codes "vide" };
    }) ++ types_text true (record { 0 = codes "avc1" } ∷ record { 0 = 0 ∷ 44 ∷ 32 ∷ 126 ∷ [] } ∷ []) ≡
        codes "track=2 timescale=90000 entries=3 handler=vide types=avc1,???~\n" }
    ensures no_entry { types_text true [] ≡ codes "-\n" }
{}

/// Worked records: that of a line with numbers of more than 32 bits, that of one whose mdat goes to the end of the
/// stream and begins before its track ended, and the 88 bytes of one whose numbers differ.
pub fn worked_records()
    ensures sized { record_with (record {
      id = 2;
      timescale = 90000;
      handler = 0x76696465;
      entries = 3;
      desc = 1;
      duration = 0;
      size = 0;
      flags = 0;
      next = 0;
    }) (record {
      sequence = 7;
      at = 4294967660;
      size = Some 4294967415;
      track = 2;
      time = 4294967301;
      duration = 4294970368;
      samples = 3;
      sync = true;
      media = 4294967311;
      presented = record { earliest = pos 4294967295; syncs = 2 };
      ended = 4294967303;
    }) ≡
        record {
          at = 4294967660;
          size = 4294967415;
          time = 4294967301;
          duration = 4294970368;
          media = 4294967311;
          sequence = 7;
          track = 2;
          timescale = 90000;
          samples = 3;
          sync = 1;
          syncs = 2;
          ended = 4294967303;
          earliest = pos 4294967295;
          handler = 1986618469;
          entries = 3;
        } }
    ensures open { record_with (record {
      id = 2;
      timescale = 48000;
      handler = 0;
      entries = 1;
      desc = 1;
      duration = 0;
      size = 0;
      flags = 0;
      next = 0;
    }) (record {
      sequence = 8;
      at = 364;
      size = None;
      track = 1;
      time = 4096;
      duration = 1024;
      samples = 1;
      sync = false;
      media = 5;
      presented = record { earliest = negsuc 1023; syncs = 0 };
      ended = 3072;
    }) ≡
        record {
          at = 364;
          size = 18446744073709551615;
          time = 4096;
          duration = 1024;
          media = 5;
          sequence = 8;
          track = 1;
          timescale = 48000;
          samples = 1;
          sync = 0;
          syncs = 0;
          ended = 3072;
          earliest = negsuc 1023;
          handler = 0;
          entries = 1;
        } }
    ensures bytes { record_bytes (record {
      at = 0x0102030405060708;
      size = 0x1112131415161718;
      time = 0x2122232425262728;
      duration = 0x3132333435363738;
      media = 0x4142434445464748;
      sequence = 0x51525354;
      track = 0x61626364;
      timescale = 0x71727374;
      samples = 0x81828384;
      sync = 1;
      syncs = 0x91929394;
      ended = 0xa1a2a3a4a5a6a7a8;
      earliest = negsuc 258;
      handler = 0xb1b2b3b4;
      entries = 0xc1c2c3c4;
    }) ≡
        0x01 ∷ 0x02 ∷ 0x03 ∷ 0x04 ∷ 0x05 ∷ 0x06 ∷ 0x07 ∷ 0x08 ∷
        0x11 ∷ 0x12 ∷ 0x13 ∷ 0x14 ∷ 0x15 ∷ 0x16 ∷ 0x17 ∷ 0x18 ∷
        0x21 ∷ 0x22 ∷ 0x23 ∷ 0x24 ∷ 0x25 ∷ 0x26 ∷ 0x27 ∷ 0x28 ∷
        0x31 ∷ 0x32 ∷ 0x33 ∷ 0x34 ∷ 0x35 ∷ 0x36 ∷ 0x37 ∷ 0x38 ∷
        0x41 ∷ 0x42 ∷ 0x43 ∷ 0x44 ∷ 0x45 ∷ 0x46 ∷ 0x47 ∷ 0x48 ∷
        0x51 ∷ 0x52 ∷ 0x53 ∷ 0x54 ∷ 0x61 ∷ 0x62 ∷ 0x63 ∷ 0x64 ∷
        0x71 ∷ 0x72 ∷ 0x73 ∷ 0x74 ∷ 0x81 ∷ 0x82 ∷ 0x83 ∷ 0x84 ∷
        0x00 ∷ 0x00 ∷ 0x00 ∷ 0x01 ∷ 0x91 ∷ 0x92 ∷ 0x93 ∷ 0x94 ∷
        0xa1 ∷ 0xa2 ∷ 0xa3 ∷ 0xa4 ∷ 0xa5 ∷ 0xa6 ∷ 0xa7 ∷ 0xa8 ∷
        0xff ∷ 0xff ∷ 0xff ∷ 0xff ∷ 0xff ∷ 0xff ∷ 0xfe ∷ 0xfd ∷
        0xb1 ∷ 0xb2 ∷ 0xb3 ∷ 0xb4 ∷ 0xc1 ∷ 0xc2 ∷ 0xc3 ∷ 0xc4 ∷ [] }
{}

/// All samples that are counted were inspected.
pub fn samples_are_inspected()
    ensures { (command : Command) (b : List ℕ) →
        (reading command b).effects.tally.samples ≤ (reading command b).effects.tally.inspected }
{}

/// An operation that reads each stream as another does, but writes no text, reads each stream as the other: with the
/// same outcome, the same requests and the same counts.
pub fn text_alone()
    ensures { (meaning : Meaning) (no_effects : Meaning) (c : Context) (b : List ℕ) →
        IsWithoutText meaning no_effects → reads_in no_effects c b ≡ without_text (reads_in meaning c b) }
{}
