//! Worked flag words of tfhd and trun.

use mp4_box::{Flags, TfhdFlags, TrunFlags};

#[test]
fn words_of_tfhd(rt: HostRuntime) {
    let defaults = TfhdFlags::DEFAULT_BASE_IS_MOOF
        | TfhdFlags::DEFAULT_SAMPLE_DURATION
        | TfhdFlags::DEFAULT_SAMPLE_SIZE
        | TfhdFlags::DEFAULT_SAMPLE_FLAGS;
    assert_eq!(rt; TfhdFlags::of_word(0x020038), defaults);
    assert_eq!(rt;
        TfhdFlags::of_word(0x02003a),
        defaults | TfhdFlags::SAMPLE_DESCRIPTION_INDEX
    );
    assert_eq!(rt; TfhdFlags::of_word(0x000001), TfhdFlags::BASE_DATA_OFFSET);
}

#[test]
fn words_of_trun(rt: HostRuntime) {
    let sizes = TrunFlags::DATA_OFFSET | TrunFlags::SAMPLE_SIZE;
    let times = TrunFlags::DATA_OFFSET | TrunFlags::SAMPLE_COMPOSITION_TIME_OFFSET;
    assert_eq!(rt; TrunFlags::of_word(0x000201), sizes);
    assert_eq!(rt;
        TrunFlags::of_word(0x000301),
        sizes | TrunFlags::SAMPLE_DURATION
    );
    assert_eq!(rt;
        TrunFlags::of_word(0x000a05),
        sizes | times | TrunFlags::FIRST_SAMPLE_FLAGS
    );
    assert_eq!(rt; TrunFlags::of_word(0x000801), times);
}

#[test]
fn bits_that_are_no_flag(rt: HostRuntime) {
    assert!(rt; TrunFlags::of_word(0xfff0fa).is_empty());
    assert_eq!(rt; TfhdFlags::of_word(0xfcffc4).bits(), 0);
}

#[test]
fn one_flag(rt: HostRuntime) {
    let flags = TrunFlags::of_word(0x000301);
    assert!(rt; flags.contains(TrunFlags::SAMPLE_DURATION));
    assert!(rt; !flags.contains(TrunFlags::SAMPLE_FLAGS));
}
