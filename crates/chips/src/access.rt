//! What a chip promises to the units above it.
ghost use Rattle.std.specs.Prelude.{◌≡◌, ◌≤◌, ℕ, Decides, IfSome, None, Option, true, false};
ghost use Rattle.dividers.specs.declared.ConfigError.{ConfigError};
ghost use Rattle.fields.specs.declared.CommonField.{CommonField};
ghost use Rattle.fields.specs.declared.RxField.{RxField};
ghost use Rattle.fields.specs.declared.Side.{Side};
ghost use Rattle.fields.specs.declared.TxField.{TxField};
ghost use Rattle.marks.specs.declared.Events.{Events};
ghost use Rattle.marks.specs.Events.{intersection};
ghost use Rattle.marks.specs.Marks.{cleared, enabling};
ghost use Rattle.blocks.specs.Half.{Half, moved};
ghost use Rattle.chips.specs.Dividers.{Divider, Divides, Keeps, settled};
ghost use Rattle.chips.specs.Handles.{Halts, Handles};
ghost use Rattle.chips.specs.Interrupts.{interrupts_of, rx_named, tx_named};
ghost use Rattle.chips.specs.Moves.{Checked, Moves, OnRx, OnTx, Opens, Whole, start_polls, started, wait_polls, waited};

use crate::interrupts::I2sInterrupts;
use blocks::RegBlock;
use dividers::ConfigError;
use fields::Side;
use marks::Events;

/// A chip's driver over its block. Each function makes the puts, clears and polls of the published one of its name, in that
/// order; where that waits for ever, it takes an allowance of polls.
pub trait RegisterAccessPrivate: RegBlock {
    /// A unit's set-up as it is written.
    type UnitConfig: Drop;

    /// The format that the units keep since their opening.
    type DataFormat: Copy;

    /// A unit's set-up that passed, with the format that its unit keeps.
    type Setup: Drop;

    /// The set-up of both units as it is written.
    type Config: Drop;

    /// The set-up of both units that passed.
    type Opening: Drop;

    /// The largest denominator of a divider's pair.
    const MAX: u32;

    ghost MAX: { ℕ };

    // When a unit's set-up is refused, and what a checked one was made from.
    ghost refusal: { Self.UnitConfig × Self.DataFormat → Option ConfigError };

    ghost from: { Self.Setup → Self.UnitConfig × Self.DataFormat };

    // The same of an opening, and the format that its units keep.
    ghost open_refusal: { Self.Config → Option (Side × ConfigError) };

    ghost from_open: { Self.Opening → Self.Config };

    ghost keeps: { Self.Config → Self.DataFormat };

    // What the functions make of each half, and what an opening makes of all.
    ghost tx_moves: { Moves TxField (Self.UnitConfig × Self.DataFormat) };

    ghost rx_moves: { Moves RxField (Self.UnitConfig × Self.DataFormat) };

    ghost opens: { Opens Self.Config };

    ghost masters: { Whole };

    ghost updates: { Whole };

    // Where a start of the transmit unit is put.
    ghost tx_start_field: { TxField };

    // The events that the chip has.
    ghost own_events: { Events };

    // The divider that stands in the fields, that of a unit's set-up if it has one, and those of an opening.
    ghost tx_divider: { (TxField → ℕ) → (CommonField → ℕ) → Divider };

    ghost rx_divider: { (RxField → ℕ) → (CommonField → ℕ) → Divider };

    ghost own_divider: { Option (Self.UnitConfig × Self.DataFormat → Divider) };

    ghost tx_at_open: { Self.Config → Divider };

    ghost rx_at_open: { Self.Config → Divider };

    /// The unit's set-up, if it passes.
    fn check(
        config: &Self::UnitConfig,
        format: Self::DataFormat,
    ) -> Result<Self::Setup, ConfigError>
        ensures { Checked from refusal (config.now, format) result };

    /// Whether two set-ups of a unit are the same.
    fn same_config(a: &Self::UnitConfig, b: &Self::UnitConfig) -> bool
        ensures { Decides result (a.now ≡ b.now) };

    /// The set-up of both units, if it passes, the transmit unit first.
    fn check_open(config: &Self::Config) -> Result<Self::Opening, (Side, ConfigError)>
        ensures { Checked from_open open_refusal config.now result };

    /// The format that the units keep.
    fn data_format(opening: &Self::Opening) -> Self::DataFormat
        ensures { result ≡ keeps (from_open opening.now) };

    /// The events that the chip has, of either half.
    fn own_events() -> Events
        ensures { result ≡ own_events };

    /// Turns the named events on or off.
    fn enable_listen(&mut self, interrupts: I2sInterrupts, enable: bool)
        ensures tx { Self.tx self.new ≡ moved (enabling (intersection (tx_named interrupts) own_events) enable) (Self.tx self.old) }
        ensures rx { Self.rx self.new ≡ moved (enabling (intersection (rx_named interrupts) own_events) enable) (Self.rx self.old) }
        ensures common { Self.common self.new ≡ Self.common self.old }
        ensures dividers { Keeps Self.tx Self.rx Self.common tx_divider rx_divider self.old self.new };

    /// Turns the named events on.
    fn listen(&mut self, interrupts: I2sInterrupts)
        ensures tx { Self.tx self.new ≡ moved (enabling (intersection (tx_named interrupts) own_events) true) (Self.tx self.old) }
        ensures rx { Self.rx self.new ≡ moved (enabling (intersection (rx_named interrupts) own_events) true) (Self.rx self.old) }
        ensures common { Self.common self.new ≡ Self.common self.old }
        ensures dividers { Keeps Self.tx Self.rx Self.common tx_divider rx_divider self.old self.new }
    {
        self.enable_listen(interrupts, true);
    }

    /// Turns the named events off.
    fn unlisten(&mut self, interrupts: I2sInterrupts)
        ensures tx { Self.tx self.new ≡ moved (enabling (intersection (tx_named interrupts) own_events) false) (Self.tx self.old) }
        ensures rx { Self.rx self.new ≡ moved (enabling (intersection (rx_named interrupts) own_events) false) (Self.rx self.old) }
        ensures common { Self.common self.new ≡ Self.common self.old }
        ensures dividers { Keeps Self.tx Self.rx Self.common tx_divider rx_divider self.old self.new }
    {
        self.enable_listen(interrupts, false);
    }

    /// The events that are reported: they stand and are enabled.
    fn interrupts(&self) -> I2sInterrupts
        ensures answer { result ≡ interrupts_of own_events (Self.tx self.now).marks (Self.rx self.now).marks }
        ensures unchanged { self.exit.now ≡ self.entry.now };

    /// Ends the named events.
    fn clear_interrupts(&mut self, interrupts: I2sInterrupts)
        ensures tx { Self.tx self.new ≡ moved (cleared (intersection (tx_named interrupts) own_events)) (Self.tx self.old) }
        ensures rx { Self.rx self.new ≡ moved (cleared (intersection (rx_named interrupts) own_events)) (Self.rx self.old) }
        ensures common { Self.common self.new ≡ Self.common self.old }
        ensures dividers { Keeps Self.tx Self.rx Self.common tx_divider rx_divider self.old self.new };

    /// Makes the chip the master of both halves' clocks.
    fn set_master(&mut self)
        ensures tx { Self.tx self.new ≡ masters.tx (Self.tx self.old) }
        ensures rx { Self.rx self.new ≡ masters.rx (Self.rx self.old) }
        ensures common { Self.common self.new ≡ masters.common (Self.common self.old) }
        ensures dividers { Keeps Self.tx Self.rx Self.common tx_divider rx_divider self.old self.new };

    /// Takes the set-up of both units over.
    fn configure(&mut self, opening: &Self::Opening)
        ensures tx { Self.tx self.new ≡ opens.tx (from_open opening.now) (Self.tx self.old) }
        ensures rx { Self.rx self.new ≡ opens.rx (from_open opening.now) (Self.rx self.old) }
        ensures common { Self.common self.new ≡ opens.common (from_open opening.now) (Self.common self.old) }
        ensures tx_divider { tx_divider (Self.tx self.new).fields (Self.common self.new) ≡ tx_at_open (from_open opening.now) }
        ensures rx_divider { rx_divider (Self.rx self.new).fields (Self.common self.new) ≡ rx_at_open (from_open opening.now) };

    /// Has both halves take over what was put, transmit first.
    fn update(&mut self)
        ensures tx { Self.tx self.new ≡ updates.tx (Self.tx self.old) }
        ensures rx { Self.rx self.new ≡ updates.rx (Self.rx self.old) }
        ensures common { Self.common self.new ≡ updates.common (Self.common self.old) }
        ensures dividers { Keeps Self.tx Self.rx Self.common tx_divider rx_divider self.old self.new };

    /// Takes a unit's set-up over into the transmit half.
    fn configure_tx(&mut self, setup: &Self::Setup)
        ensures half { OnTx Self.tx Self.rx Self.common (tx_moves.sets (from setup.now)) self.old self.new }
        ensures divider { tx_divider (Self.tx self.new).fields (Self.common self.new) ≡ settled own_divider (from setup.now) (tx_divider (Self.tx self.old).fields (Self.common self.old)) };

    /// Takes a unit's set-up over into the receive half.
    fn configure_rx(&mut self, setup: &Self::Setup)
        ensures half { OnRx Self.tx Self.rx Self.common (rx_moves.sets (from setup.now)) self.old self.new }
        ensures divider { rx_divider (Self.rx self.new).fields (Self.common self.new) ≡ settled own_divider (from setup.now) (rx_divider (Self.rx self.old).fields (Self.common self.old)) };

    /// Resets the transmit half and clears the events of its last transfer.
    fn reset_tx(&mut self)
        ensures half { OnTx Self.tx Self.rx Self.common tx_moves.resets self.old self.new }
        ensures dividers { Keeps Self.tx Self.rx Self.common tx_divider rx_divider self.old self.new };

    /// Starts the transmit half; the polls made, or none where it was never found busy within the allowance.
    fn tx_start(&mut self, allowance: u16) -> Option<u32>
        ensures answer { result ≡ start_polls tx_moves allowance (tx_moves.starts 0 (Self.tx self.old)) }
        ensures within { IfSome result (λ polls. polls ≤ allowance) }
        ensures half { OnTx Self.tx Self.rx Self.common (λ h. started tx_moves allowance (tx_moves.starts 0 h)) self.old self.new }
        ensures dividers { Keeps Self.tx Self.rx Self.common tx_divider rx_divider self.old self.new };

    /// Stops the transmit half, and resets nothing.
    fn tx_stop(&mut self)
        ensures half { OnTx Self.tx Self.rx Self.common tx_moves.stops self.old self.new }
        ensures dividers { Keeps Self.tx Self.rx Self.common tx_divider rx_divider self.old self.new };

    /// Polls until the transmit half is finished, and then stops it; the polls made, or none where the allowance is used up.
    fn wait_for_tx_done(&mut self, allowance: u16) -> Option<u32>
        ensures answer { result ≡ wait_polls tx_moves allowance (Self.tx self.old) }
        ensures within { IfSome result (λ polls. polls ≤ allowance) }
        ensures half { OnTx Self.tx Self.rx Self.common (waited tx_moves allowance) self.old self.new }
        ensures dividers { Keeps Self.tx Self.rx Self.common tx_divider rx_divider self.old self.new };

    /// Resets the receive half and clears the events of its last transfer.
    fn reset_rx(&mut self)
        ensures half { OnRx Self.tx Self.rx Self.common rx_moves.resets self.old self.new }
        ensures dividers { Keeps Self.tx Self.rx Self.common tx_divider rx_divider self.old self.new };

    /// Starts the receive half for a length in bytes.
    fn rx_start(&mut self, len: u32)
        ensures half { OnRx Self.tx Self.rx Self.common (rx_moves.starts len) self.old self.new }
        ensures dividers { Keeps Self.tx Self.rx Self.common tx_divider rx_divider self.old self.new };

    /// Polls until the receive half is finished, and then clears the event of its end; the polls made, or none where the allowance
    /// is used up.
    fn wait_for_rx_done(&mut self, allowance: u16) -> Option<u32>
        ensures answer { result ≡ wait_polls rx_moves allowance (Self.rx self.old) }
        ensures within { IfSome result (λ polls. polls ≤ allowance) }
        ensures half { OnRx Self.tx Self.rx Self.common (waited rx_moves allowance) self.old self.new }
        ensures dividers { Keeps Self.tx Self.rx Self.common tx_divider rx_divider self.old self.new };

    // What is known of every chip: its largest denominator is one for which each fraction is nearest; of all that is done to a half, only an accepted set-up changes its divider; an opening leaves those of its set-up; and what resets, starts and stops do to marks and draws.
    ghost max_least: { 3 ≤ MAX };

    ghost max_most: { MAX ≤ 1000 };

    ghost tx_divides: { (c : CommonField → ℕ) → Divides tx_moves refusal own_divider (λ row. tx_divider row c) };

    ghost rx_divides: { (c : CommonField → ℕ) → Divides rx_moves refusal own_divider (λ row. rx_divider row c) };

    ghost tx_opens: { (o : Self.Config) (h : Half TxField) (c : CommonField → ℕ) → open_refusal o ≡ None → tx_divider (opens.tx o h).fields (opens.common o c) ≡ tx_at_open o };

    ghost rx_opens: { (o : Self.Config) (h : Half RxField) (c : CommonField → ℕ) → open_refusal o ≡ None → rx_divider (opens.rx o h).fields (opens.common o c) ≡ rx_at_open o };

    ghost tx_handles: { Handles tx_moves };

    ghost rx_handles: { Handles rx_moves };

    ghost tx_halts: { Halts tx_moves tx_start_field };
}
