//! Tests on examples of refusals: number and text of each.
use dividers::ConfigError;
use errors::{DmaError, Error, OpenError};
use fields::Side;
use std::alloc::Global;
use std::process::Abort;
use std::test::Fail;

// An error, its number, and its text.
static ERRORS: [(Error, u8, &str); 9] = [
    (
        Error::ConfigError(ConfigError::ChannelsOutOfRange),
        1,
        "refused by 1, ChannelsOutOfRange: no channel is active, or the slots are more than 16",
    ),
    (
        Error::ConfigError(ConfigError::WsWidthOutOfRange),
        2,
        "refused by 2, WsWidthOutOfRange: word select is active for 0 bits, for more than 128, or for more than the frame has",
    ),
    (
        Error::ConfigError(ConfigError::FrameTooLong),
        3,
        "refused by 3, FrameTooLong: the frame has more than 128 bits",
    ),
    (
        Error::ConfigError(ConfigError::RateOutOfRange),
        4,
        "refused by 4, RateOutOfRange: the rate, the channels or the data bits are 0, or a clock is above 4294967295 Hz",
    ),
    (
        Error::ConfigError(ConfigError::ClockOutOfReach),
        5,
        "refused by 5, ClockOutOfReach: the integer part is not from 1 to 255, or the pair cannot be split",
    ),
    (
        Error::IllegalArgument,
        6,
        "refused by 6, IllegalArgument: a receive length is a multiple of 4 from 4 to 4096 bytes, a transmit length is from 1 to 65535 bytes",
    ),
    (
        Error::DmaError(DmaError {
            length: 65_535,
            limit: 0,
        }),
        7,
        "refused by 7, DmaError: the length is 65535 bytes, the unit's limit is 0",
    ),
    (
        Error::StartTimedOut(0),
        8,
        "refused by 8, StartTimedOut: none of 0 polls found the transmit unit busy",
    ),
    (
        Error::TimedOut(4_294_967_295),
        9,
        "refused by 9, TimedOut: none of 4294967295 polls found the unit finished",
    ),
];

#[test]
fn refusals_have_their_numbers_and_texts(rt: HostRuntime) -> Result<(), Fail> {
    for (error, number, text) in ERRORS.iter() {
        assert_eq!(rt; error.number(), *number);
        is_written(&rt, rt.alloc(), *error, text)?;
    }
    Ok(())
}

fn is_written(rt: &impl Abort, heap: Global, error: Error, text: &str) -> Result<(), Fail> {
    let written = error.to_string(heap)?;
    assert_eq!(rt; written.as_str(), text);
    Ok(())
}

#[test]
fn a_refused_opening_names_the_unit(rt: HostRuntime) -> Result<(), Fail> {
    let refused = OpenError {
        unit: Side::Receive,
        error: ConfigError::FrameTooLong,
    };
    let written = refused.to_string(rt.alloc())?;
    assert_eq!(rt;
        written.as_str(),
        "receive unit: refused by 3, FrameTooLong: the frame has more than 128 bits"
    );
    Ok(())
}
