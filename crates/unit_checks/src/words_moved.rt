//! Words written and read: starts and waits joined.
use crate::chips_opened::{LIMIT, new_config, open_new};
use errors::{DmaError, Error};
use joined::{AcceptedWord, read_words, write_words};
use marks::Draw;
use std::test::Fail;
use units::Unit;

const DRAW: Draw = Draw {
    late: 0,
    wait: 2,
    hung: false,
};

// The polls, or the refusal and whether the unit still runs.
fn written<W: AcceptedWord>(
    words: &[W],
    limit: u16,
    allowance: u16,
) -> Result<Result<u32, (Error, bool)>, Fail> {
    match open_new(DRAW, &new_config(), limit) {
        Ok((opened, tx, _)) => {
            let mut opened = opened;
            Ok(match write_words(tx, &mut opened, words, 0, allowance) {
                Ok((_, polls)) => Ok(polls),
                Err((Unit::Resting(_), error)) => Err((error, false)),
                Err((Unit::Running(_), error)) => Err((error, true)),
            })
        }
        Err(_) => Err(Fail::new("it is opened, or is not, against what is expected")),
    }
}

fn read<W: AcceptedWord>(
    words: &mut [W],
    allowance: u16,
) -> Result<Result<u32, (Error, bool)>, Fail> {
    match open_new(DRAW, &new_config(), LIMIT) {
        Ok((opened, _, rx)) => {
            let mut opened = opened;
            Ok(match read_words(rx, &mut opened, words, 0, allowance) {
                Ok((_, polls)) => Ok(polls),
                Err((Unit::Resting(_), error)) => Err((error, false)),
                Err((Unit::Running(_), error)) => Err((error, true)),
            })
        }
        Err(_) => Err(Fail::new("it is opened, or is not, against what is expected")),
    }
}

// The length counts in bytes, of words of every kind.
#[test]
fn words_are_counted_in_bytes(rt: HostRuntime) -> Result<(), Fail> {
    let error = |length| Err((Error::DmaError(DmaError { length, limit: 15 }), false));
    assert!(rt;
        written(&[0u8; 16], 15, 9)? == error(16) && written(&[0i8; 16], 15, 9)? == error(16)
    );
    assert!(rt;
        written(&[0u16; 8], 15, 9)? == error(16) && written(&[0i16; 8], 15, 9)? == error(16)
    );
    assert!(rt;
        written(&[0u32; 4], 15, 9)? == error(16) && written(&[0i32; 4], 15, 9)? == error(16)
    );
    assert!(rt; written(&[0u16; 7], 15, 9)? == Ok(3));
    Ok(())
}

// A finished transfer and a wait that times out carry the polls of both; what is read stays as it was.
#[test]
fn polls_are_counted_together(rt: HostRuntime) -> Result<(), Fail> {
    let mut words = [1u32, 2, 3];
    assert!(rt; read(&mut words, 3)? == Ok(3) && words == [1, 2, 3]);
    assert!(rt; read(&mut words, 2)? == Err((Error::TimedOut(2), true)));
    assert!(rt; read(&mut words, 0)? == Err((Error::TimedOut(0), true)));
    assert!(rt; written(&[1u8], 1, 2)? == Err((Error::TimedOut(2), true)));
    let mut odd = [1u16, 2, 3];
    assert!(rt; read(&mut odd, 3)? == Err((Error::IllegalArgument, false)));
    let mut none: [u8; 0] = [];
    assert!(rt; read(&mut none, 3)? == Err((Error::IllegalArgument, false)));
    Ok(())
}
