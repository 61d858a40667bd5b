//! The set-up that a whole sheet asks.
ghost use Rattle.std.specs.Prelude.{◌≡◌, IfSome, is_some};
ghost use Rattle.sheets.specs.Asked.{Asks, asked_of, esp32_asked, esp32c3_asked, esp32c3_channels, is_ready, reading_asked};

use crate::lack::{ESP32_SLOTS, esp32_channels, esp32_format, esp32_width, row_fits};
use crate::reading::Reading;
use crate::sheet::Sheet;
use dividers::Rate;
use entries::{Chip, Fill};
use old_setups as esp32;
use setups::esp32c3;

/// A unit's set-up with its chip. Both units of the old chip are set up alike.
#[derive(Clone, Copy, PartialEq, Eq)]
pub enum Asked {
    Esp32(esp32::Config),
    Esp32C3(esp32c3::UnitConfig),
}

impl Sheet {
    /// The set-up of a sheet that lacks nothing.
    pub fn asked(&self) -> Option<Asked>
        ensures asks { IfSome result (λ asked. Asks self.now asked) }
        ensures ready { is_some result ≡ is_ready self.now }
        ensures computed { result ≡ asked_of self.now }
    {
        self.chip_asked()
    }

    // The same, chip by chip.
    fn chip_asked(&self) -> Option<Asked>
        ensures { result ≡ asked_of self.now }
    {
        match self.chip? {
            Chip::Esp32 => Some(Asked::Esp32(self.esp32_asked()?)),
            Chip::Esp32C3 => Some(Asked::Esp32C3(self.esp32c3_asked()?)),
        }
    }

    fn esp32_asked(&self) -> Option<esp32::Config>
        ensures { result ≡ esp32_asked self.now }
    {
        let sample_rate = Rate::from_hz(self.rate?);
        if self.slots? != ESP32_SLOTS {
            return None;
        }
        let channels = esp32_channels(self.active?, self.fill?)?;
        let data_format = esp32_format(self.format?)?;
        let unit = esp32::UnitConfig {
            channels,
            ws_width: esp32_width(self.width?)?,
            ws_polarity: self.polarity?,
            msb_shift: self.shift?,
        };
        if self.endianness.is_some() || self.order.is_some() {
            return None;
        }
        Some(esp32::Config {
            rx_config: unit,
            tx_config: unit,
            sample_rate,
            data_format,
        })
    }

    fn esp32c3_asked(&self) -> Option<esp32c3::UnitConfig>
        ensures { result ≡ esp32c3_asked self.now }
    {
        Some(esp32c3::UnitConfig {
            sample_rate: Rate::from_hz(self.rate?),
            channels: self.esp32c3_channels()?,
            data_format: self.format?,
            ws_width: self.width?,
            ws_polarity: self.polarity?,
            msb_shift: self.shift?,
            endianness: self.endianness?,
            bit_order: self.order?,
        })
    }

    fn esp32c3_channels(&self) -> Option<esp32c3::Channels>
        ensures { result ≡ esp32c3_channels self.now.slots self.now.active self.now.fill }
    {
        let slots = self.slots?;
        let row = self.active?;
        let fill = match self.fill? {
            Fill::Repeat => None,
            Fill::Number(number) => Some(number),
        };
        row_fits(slots, row).then(|| esp32c3::Channels::new(slots, row.mask, fill))
    }
}

impl Reading {
    /// What the sheet asks: a set-up where each of its lines is read and nothing is lacking.
    pub fn asked(&self) -> Option<Asked>
        ensures { result ≡ reading_asked self.now }
    {
        if !self.all_read {
            return None;
        }
        self.sheet.asked()
    }
}
