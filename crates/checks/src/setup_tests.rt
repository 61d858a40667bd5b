//! Tests of set-ups: the settled ones, each refusal at its limit, and values of every size.
use dividers::{ConfigError, Rate};
use fractions::{settled_frames, settled_rates};
use old_setups::{ClockReach as OldReach, Config as OldConfig};
use setups::esp32c3::{Channels, ClockReach, DataFormat, UnitConfig, WsWidth};
use std::test::Fail;

// Why the new chip refuses a set-up, if it does.
fn refusal(config: UnitConfig) -> Option<ConfigError> {
    config.check(ClockReach::esp32c3()).err()
}

fn with_slots(count: u8, mask: u16) -> UnitConfig {
    UnitConfig::new_tdm_philips().with_channels(Channels::new(count, mask, None))
}

fn at_rate(hertz: u32) -> UnitConfig {
    UnitConfig::new_tdm_philips().with_sample_rate(Rate::from_hz(hertz))
}

#[test]
fn settled_set_ups_are_as_settled(rt: HostRuntime) -> Result<(), Fail> {
    for rate in settled_rates() {
        let new = at_rate(rate).check(ClockReach::esp32c3())?;
        let old = OldConfig::new_tdm_philips()
            .with_sample_rate(Rate::from_hz(rate))
            .check(OldReach::esp32())?;
        assert_eq!(rt; new.numbers().clkm_div_num, old.numbers().clkm_div_num);
        assert_eq!(rt; new.numbers().bck_div_num + 1, old.numbers().bck_div_num);
    }
    let mut refusals = [None; 3];
    for (place, frame) in refusals.iter_mut().zip(settled_frames()) {
        *place = refusal(frame);
    }
    assert!(rt;
        refusals
            == [
                None,
                Some(ConfigError::FrameTooLong),
                Some(ConfigError::WsWidthOutOfRange)
            ]
    );
    Ok(())
}

// Counts and masks with 8 bits a slot, and why they are refused, if they are.
static CHANNELS: [(u8, u16, Option<ConfigError>); 10] = [
    (0, 0xffff, Some(ConfigError::ChannelsOutOfRange)),
    (1, 0xffff, None),
    (1, 0xfffe, Some(ConfigError::ChannelsOutOfRange)),
    (15, 0x8000, Some(ConfigError::ChannelsOutOfRange)),
    (15, 0x4000, None),
    (16, 0x8000, None),
    (16, 0, Some(ConfigError::ChannelsOutOfRange)),
    (17, 0xffff, Some(ConfigError::ChannelsOutOfRange)),
    (255, 0xffff, Some(ConfigError::ChannelsOutOfRange)),
    (255, 0, Some(ConfigError::ChannelsOutOfRange)),
];

#[test]
fn channels_are_counted_and_masked(rt: HostRuntime) {
    for (count, mask, error) in CHANNELS.iter() {
        let config = with_slots(*count, *mask).with_data_format(DataFormat::Data8Channel8);
        assert!(rt; refusal(config) == *error);
    }
    assert_eq!(rt; Channels::new(3, 0xffff, None).mask(), 0b111);
    assert_eq!(rt; Channels::new(16, 0xffff, None).active_count(), 16);
}

// Widths in bits with four slots of 32, and with one of 8.
static WIDTHS: [(u16, bool, bool); 7] = [
    (0, false, false),
    (1, true, true),
    (8, true, true),
    (9, true, false),
    (128, true, false),
    (129, false, false),
    (65_535, false, false),
];

#[test]
fn word_select_stays_in_the_frame(rt: HostRuntime) {
    let long = with_slots(4, 0b1111).with_data_format(DataFormat::Data32Channel32);
    let short = with_slots(1, 1).with_data_format(DataFormat::Data8Channel8);
    for (bits, in_long, in_short) in WIDTHS.iter() {
        let width = WsWidth::Bits(*bits);
        for (config, passes) in [(long, *in_long), (short, *in_short)] {
            let wrong = if passes {
                None
            } else {
                Some(ConfigError::WsWidthOutOfRange)
            };
            assert!(rt; refusal(config.with_ws_width(width)) == wrong);
        }
    }
    let five = with_slots(5, 0b11111).with_data_format(DataFormat::Data32Channel32);
    assert!(rt; refusal(five.with_ws_width(WsWidth::Bit)) == Some(ConfigError::FrameTooLong));
}

// Rates in stereo at 16 bits, and why both chips refuse them, if they do.
static RATES: [(u32, Option<ConfigError>); 9] = [
    (0, Some(ConfigError::RateOutOfRange)),
    (1, Some(ConfigError::ClockOutOfReach)),
    (2_441, Some(ConfigError::ClockOutOfReach)),
    (2_442, None),
    (629_976, None),
    (629_977, Some(ConfigError::ClockOutOfReach)),
    (16_777_215, Some(ConfigError::ClockOutOfReach)),
    (16_777_216, Some(ConfigError::RateOutOfRange)),
    (u32::MAX, Some(ConfigError::RateOutOfRange)),
];

#[test]
fn rates_are_refused_alike(rt: HostRuntime) {
    for (hertz, error) in RATES.iter() {
        let old = OldConfig::new_tdm_philips().with_sample_rate(Rate::from_hz(*hertz));
        assert!(rt; refusal(at_rate(*hertz)) == *error);
        assert!(rt; old.check(OldReach::esp32()).err() == *error);
    }
}

#[test]
fn fills_of_every_size_are_kept(rt: HostRuntime) -> Result<(), Fail> {
    for fill in [0, 1, 0xffff, u32::MAX] {
        let channels = Channels::new(2, 0b01, Some(fill));
        let config = UnitConfig::new_tdm_philips().with_channels(channels);
        let numbers = config.check(ClockReach::esp32c3())?.numbers();
        assert!(rt; numbers.single_data == fill && !numbers.chan_equal);
    }
    let numbers = at_rate(48_000).check(ClockReach::esp32c3())?.numbers();
    assert!(rt; numbers.single_data == 0 && numbers.chan_equal);
    Ok(())
}
