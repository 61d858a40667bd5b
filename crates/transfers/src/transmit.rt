//! Set-ups and transfers of the transmit unit, on a chip.
ghost use Rattle.std.specs.Prelude.{◌≡◌, ◌≤◌, IfOk};
ghost use Rattle.chips.specs.Moves.{OnTx, waited};
ghost use Rattle.std.specs.Result.{result_err};
ghost use Rattle.transfers.specs.Calls.{apply_leaves, polls_told, raise_leaves, raise_says, tx_begin_leaves, tx_begin_says, tx_start_leaves, tx_start_says, wait_says};

use chips::RegisterAccessPrivate;
use dividers::ConfigError;
use errors::{DmaError, Error};

// The longest transfer, in bytes.
const MAX_LEN: usize = 65_535;

/// Takes a set-up over into the transmit half, if it passes at the format that the unit keeps.
pub fn apply_tx<C: RegisterAccessPrivate>(
    chip: &mut C,
    format: C::DataFormat,
    config: &C::UnitConfig,
) -> Result<(), ConfigError>
    ensures answer { result_err result ≡ C.refusal (config.now, format) }
    ensures half { OnTx C.tx C.rx C.common (apply_leaves C.tx_moves C.refusal (config.now, format)) chip.old chip.new }
{
    let setup = C::check(config, format)?;
    chip.configure_tx(&setup);
    Ok(())
}

/// Starts a transfer, if the unit takes its length.
pub fn start_tx<C: RegisterAccessPrivate>(
    chip: &mut C,
    limit: u16,
    len: usize,
    allowance: u16,
) -> Result<u32, Error>
    ensures answer { polls_told result ≡ tx_start_says C.tx_moves limit len allowance (C.tx chip.old) }
    ensures within { IfOk result (λ polls. polls ≤ allowance) }
    ensures half { OnTx C.tx C.rx C.common (tx_start_leaves C.tx_moves limit len allowance) chip.old chip.new }
{
    if len == 0 || len > MAX_LEN {
        return Err(Error::IllegalArgument);
    }
    begin(chip, limit, len, allowance)
}

// Resets the unit, and starts it where the length is within its limit.
fn begin<C: RegisterAccessPrivate>(
    chip: &mut C,
    limit: u16,
    len: usize,
    allowance: u16,
) -> Result<u32, Error>
    ensures answer { polls_told result ≡ tx_begin_says C.tx_moves limit len allowance (C.tx chip.old) }
    ensures within { IfOk result (λ polls. polls ≤ allowance) }
    ensures half { OnTx C.tx C.rx C.common (tx_begin_leaves C.tx_moves limit len allowance) chip.old chip.new }
{
    chip.reset_tx();
    if len > usize::from(limit) {
        return Err(Error::DmaError(DmaError { length: len, limit }));
    }
    raise(chip, allowance)
}

// Starts the unit once it is reset, and stops it where it is not found busy.
fn raise<C: RegisterAccessPrivate>(chip: &mut C, allowance: u16) -> Result<u32, Error>
    ensures answer { polls_told result ≡ raise_says C.tx_moves allowance (C.tx chip.old) }
    ensures within { IfOk result (λ polls. polls ≤ allowance) }
    ensures half { OnTx C.tx C.rx C.common (raise_leaves C.tx_moves allowance) chip.old chip.new }
{
    match chip.tx_start(allowance) {
        Some(polls) => Ok(polls),
        None => {
            chip.tx_stop();
            Err(Error::StartTimedOut(u32::from(allowance)))
        }
    }
}

/// Waits until a transfer is finished.
pub fn wait_tx<C: RegisterAccessPrivate>(chip: &mut C, allowance: u16) -> Result<u32, Error>
    ensures answer { polls_told result ≡ wait_says C.tx_moves allowance (C.tx chip.old) }
    ensures within { IfOk result (λ polls. polls ≤ allowance) }
    ensures half { OnTx C.tx C.rx C.common (waited C.tx_moves allowance) chip.old chip.new }
{
    match chip.wait_for_tx_done(allowance) {
        Some(polls) => Ok(polls),
        None => Err(Error::TimedOut(u32::from(allowance))),
    }
}
