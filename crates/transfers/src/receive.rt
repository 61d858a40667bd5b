//! Set-ups and transfers of the receive unit, on a chip.
ghost use Rattle.std.specs.Prelude.{◌≡◌, ◌≤◌, IfOk};
ghost use Rattle.chips.specs.Moves.{OnRx, waited};
ghost use Rattle.std.specs.Result.{result_err};
ghost use Rattle.transfers.specs.Calls.{apply_leaves, polls_told, rx_begin_leaves, rx_begin_says, rx_start_leaves, rx_start_says, wait_says};

use chips::RegisterAccessPrivate;
use dividers::ConfigError;
use errors::{DmaError, Error};

// The longest transfer in bytes, and the bytes of which it is a multiple.
const MAX_LEN: usize = 4_096;

const WORD: usize = 4;

/// Takes a set-up over into the receive half, if it passes at the format that the unit keeps.
pub fn apply_rx<C: RegisterAccessPrivate>(
    chip: &mut C,
    format: C::DataFormat,
    config: &C::UnitConfig,
) -> Result<(), ConfigError>
    ensures answer { result_err result ≡ C.refusal (config.now, format) }
    ensures half { OnRx C.tx C.rx C.common (apply_leaves C.rx_moves C.refusal (config.now, format)) chip.old chip.new }
{
    let setup = C::check(config, format)?;
    chip.configure_rx(&setup);
    Ok(())
}

/// Starts a transfer, if the unit takes its length.
pub fn start_rx<C: RegisterAccessPrivate>(
    chip: &mut C,
    limit: u16,
    len: usize,
) -> Result<u32, Error>
    ensures answer { polls_told result ≡ rx_start_says limit len }
    ensures none { IfOk result (λ polls. polls ≡ 0) }
    ensures half { OnRx C.tx C.rx C.common (rx_start_leaves C.rx_moves limit len) chip.old chip.new }
{
    if len == 0 || len > MAX_LEN || len % WORD != 0 {
        return Err(Error::IllegalArgument);
    }
    begin(chip, limit, len as u32)
}

// Resets the unit, and starts it where the length is within its limit.
fn begin<C: RegisterAccessPrivate>(chip: &mut C, limit: u16, len: u32) -> Result<u32, Error>
    ensures answer { polls_told result ≡ rx_begin_says limit len }
    ensures none { IfOk result (λ polls. polls ≡ 0) }
    ensures half { OnRx C.tx C.rx C.common (rx_begin_leaves C.rx_moves limit len) chip.old chip.new }
{
    reset_rx(chip);
    if len > u32::from(limit) {
        return Err(Error::DmaError(DmaError {
            length: len as usize,
            limit,
        }));
    }
    chip.rx_start(len);
    Ok(0)
}

/// Waits until a transfer is finished.
pub fn wait_rx<C: RegisterAccessPrivate>(chip: &mut C, allowance: u16) -> Result<u32, Error>
    ensures answer { polls_told result ≡ wait_says C.rx_moves allowance (C.rx chip.old) }
    ensures within { IfOk result (λ polls. polls ≤ allowance) }
    ensures half { OnRx C.tx C.rx C.common (waited C.rx_moves allowance) chip.old chip.new }
{
    match chip.wait_for_rx_done(allowance) {
        Some(polls) => Ok(polls),
        None => Err(Error::TimedOut(u32::from(allowance))),
    }
}

/// Resets the receive half, for a start and for the end of a transfer that is abandoned.
pub fn reset_rx<C: RegisterAccessPrivate>(chip: &mut C)
    ensures { OnRx C.tx C.rx C.common C.rx_moves.resets chip.old chip.new }
{
    chip.reset_rx();
}
