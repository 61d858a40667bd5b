//! Tests on examples: of the dividers, the plans and the answers here, of the blocks in `block_tests`, of the chips in `chip_tests`, of set-ups
//! in `setup_tests`, of sheets in `sheet_tests`, of refusals in `error_tests`.
#![tactic(auto)]

#[cfg(test)]
mod block_tests;
#[cfg(test)]
mod chip_tests;
#[cfg(test)]
mod error_tests;
#[cfg(test)]
mod handed;
#[cfg(test)]
mod setup_tests;
#[cfg(test)]
mod sheet_tests;

#[cfg(test)]
mod tests {
    use answers::{answer_line, summary};
    use dividers::{ConfigError, I2sClockDividers, Rate};
    use plans::Tally;
    use std::test::Fail;

    // Rate, channels, bits and MAX; integer part, bit divider, denominator and numerator.
    static ANSWERS: [(u32, u8, u8, u32, [u32; 4]); 7] = [
        (44_100, 2, 16, 63, [14, 8, 29, 5]),
        (44_100, 2, 16, 511, [14, 8, 441, 76]),
        (44_100, 2, 16, u32::MAX, [14, 8, 441, 76]),
        (44_100, 2, 16, 2, [14, 8, 2, 0]),
        (44_100, 2, 16, 1, [14, 8, 0, 0]),
        (44_100, 2, 16, 0, [14, 8, 0, 0]),
        (48_000, 2, 24, 63, [17, 4, 36, 13]),
    ];

    #[test]
    fn dividers_are_found(rt: HostRuntime) -> Result<(), Fail> {
        for (rate, channels, bits, max, numbers) in ANSWERS.iter() {
            let d = I2sClockDividers::new(Rate::from_hz(*rate), *channels, *bits, *max)?;
            let found = [d.mclk_divider, d.bclk_divider, d.denominator, d.numerator];
            assert_eq!(rt; found, *numbers);
        }
        Ok(())
    }

    // Clocks that are 0 or pass 32 bits, each for one reason.
    static REFUSED: [(u32, u8, u8); 6] = [
        (0, 2, 16),
        (44_100, 0, 16),
        (44_100, 2, 0),
        (16_777_216, 2, 16),
        (22_369_622, 2, 24),
        (66_052, 255, 255),
    ];

    #[test]
    fn clocks_out_of_range_are_refused(rt: HostRuntime) -> Result<(), Fail> {
        for (rate, channels, bits) in REFUSED.iter() {
            let answer = I2sClockDividers::new(Rate::from_hz(*rate), *channels, *bits, 63);
            assert_eq!(rt; answer.err(), Some(ConfigError::RateOutOfRange));
        }
        Ok(())
    }

    #[test]
    fn a_pair_of_one_is_not_split(rt: HostRuntime) -> Result<(), Fail> {
        let d = I2sClockDividers::new(Rate::from_hz(41_694), 2, 16, 63)?;
        assert_eq!(rt; d.mclk_dividers().err(), Some(ConfigError::ClockOutOfReach));
        Ok(())
    }

    const UNREAD: &str =
        "line 7 is not read: the rate is above 4294967295; RATE SLOTS BITS is expected, and this is \"4294967296 2 16\"\n";

    // A line that asks for a plan, a remark, a rate out of reach, and a line that is not read.
    static LINES: [&str; 4] = ["8000 2 16", "  # a remark", "2441 2 16", "4294967296 2 16"];

    #[test]
    fn lines_are_counted(rt: HostRuntime) -> Result<(), Fail> {
        let mut tally = Tally::new();
        for line in LINES.iter() {
            tally.count(answer_line(rt.alloc(), 1, line.as_bytes())?.outcome);
        }
        let closing = summary(rt.alloc(), &tally)?;
        assert_eq!(rt;
            closing.as_str(),
            "3 lines: 1 planned, 1 refused, 1 not read\n"
        );
        Ok(())
    }

    #[test]
    fn an_unread_line_is_answered(rt: HostRuntime) -> Result<(), Fail> {
        let unread = answer_line(rt.alloc(), 7, b"4294967296 2 16")?;
        assert_eq!(rt; unread.text.as_str(), UNREAD);
        Ok(())
    }
}
