//! Tests on examples of sheets: what comes of them, and the whole text of each reply.
use dividers::ConfigError;
use replies::{Outcome, Reaches, reply_to};
use std::alloc::Global;
use std::process::Abort;
use std::test::Fail;

// A sheet, what comes of it, and the text.
static SHEETS: [(&str, Outcome, &str); 15] = [
    // The new chip, slots that are not active, a fill.
    (
        "chip ESP32-C3\n\
         rate 8000\n\
         slots 4\n\
         active 1011\n\
         fill 0\n\
         format 16/16\n\
         width slot\n\
         polarity high\n\
         shift no\n\
         endianness little\n\
         order msb\n",
        Outcome::Accepted,
        "accepted: integer part 78, bit divider 4, pair 8 1, split 7 0 1 0\n\
         slot 1               2               3               4\n\
         data ################................################################\n\
         ws   ----------------________________________________________________\n\
         puts of the transmit unit, in order:\n\
         tx_clkm_div_x = 7 (9 bits)\n\
         tx_clkm_div_y = 0 (9 bits)\n\
         tx_clkm_div_yn1 = 0 (1 bit)\n\
         tx_clkm_div_z = 1 (9 bits)\n\
         clk_en = 1 (1 bit)\n\
         tx_clk_active = 1 (1 bit)\n\
         tx_clk_sel = 2 (2 bits)\n\
         tx_clkm_div_num = 78 (8 bits)\n\
         tx_bck_div_num = 3 (6 bits)\n\
         tx_msb_shift = 0 (1 bit)\n\
         tx_tdm_ws_width = 15 (7 bits)\n\
         tx_bits_mod = 15 (5 bits)\n\
         tx_tdm_chan_bits = 15 (5 bits)\n\
         tx_half_sample_bits = 31 (6 bits)\n\
         tx_mono = 0 (1 bit)\n\
         tx_mono_fst_vld = 1 (1 bit)\n\
         tx_stop_en = 1 (1 bit)\n\
         tx_chan_equal = 0 (1 bit)\n\
         tx_tdm_en = 1 (1 bit)\n\
         tx_pdm_en = 0 (1 bit)\n\
         tx_pcm_bypass = 1 (1 bit)\n\
         tx_big_endian = 0 (1 bit)\n\
         tx_bit_order = 0 (1 bit)\n\
         tx_ws_idle_pol = 1 (1 bit)\n\
         tx_chan_mod = 0 (3 bits)\n\
         tx_tdm_tot_chan_num = 3 (4 bits)\n\
         tx_tdm_chan0_en = 1 (1 bit)\n\
         tx_tdm_chan1_en = 0 (1 bit)\n\
         tx_tdm_chan2_en = 1 (1 bit)\n\
         tx_tdm_chan3_en = 1 (1 bit)\n\
         tx_tdm_chan4_en = 0 (1 bit)\n\
         tx_tdm_chan5_en = 0 (1 bit)\n\
         tx_tdm_chan6_en = 0 (1 bit)\n\
         tx_tdm_chan7_en = 0 (1 bit)\n\
         tx_tdm_chan8_en = 0 (1 bit)\n\
         tx_tdm_chan9_en = 0 (1 bit)\n\
         tx_tdm_chan10_en = 0 (1 bit)\n\
         tx_tdm_chan11_en = 0 (1 bit)\n\
         tx_tdm_chan12_en = 0 (1 bit)\n\
         tx_tdm_chan13_en = 0 (1 bit)\n\
         tx_tdm_chan14_en = 0 (1 bit)\n\
         tx_tdm_chan15_en = 0 (1 bit)\n\
         tx_tdm_skip_msk_en = 0 (1 bit)\n\
         single_data = 0 (32 bits)\n\
         puts of the receive unit, in order:\n\
         rx_clkm_div_x = 7 (9 bits)\n\
         rx_clkm_div_y = 0 (9 bits)\n\
         rx_clkm_div_yn1 = 0 (1 bit)\n\
         rx_clkm_div_z = 1 (9 bits)\n\
         rx_clk_active = 1 (1 bit)\n\
         rx_clk_sel = 2 (2 bits)\n\
         rx_clkm_div_num = 78 (8 bits)\n\
         mclk_sel = 1 (1 bit)\n\
         rx_bck_div_num = 3 (6 bits)\n\
         rx_msb_shift = 0 (1 bit)\n\
         rx_tdm_ws_width = 15 (7 bits)\n\
         rx_bits_mod = 15 (5 bits)\n\
         rx_tdm_chan_bits = 15 (5 bits)\n\
         rx_half_sample_bits = 31 (6 bits)\n\
         rx_mono = 0 (1 bit)\n\
         rx_mono_fst_vld = 1 (1 bit)\n\
         rx_stop_mode = 2 (2 bits)\n\
         rx_tdm_en = 1 (1 bit)\n\
         rx_pdm_en = 0 (1 bit)\n\
         rx_pcm_bypass = 1 (1 bit)\n\
         rx_big_endian = 0 (1 bit)\n\
         rx_bit_order = 0 (1 bit)\n\
         rx_ws_idle_pol = 1 (1 bit)\n\
         rx_tdm_tot_chan_num = 3 (4 bits)\n\
         rx_tdm_pdm_chan0_en = 1 (1 bit)\n\
         rx_tdm_pdm_chan1_en = 0 (1 bit)\n\
         rx_tdm_pdm_chan2_en = 1 (1 bit)\n\
         rx_tdm_pdm_chan3_en = 1 (1 bit)\n\
         rx_tdm_pdm_chan4_en = 0 (1 bit)\n\
         rx_tdm_pdm_chan5_en = 0 (1 bit)\n\
         rx_tdm_pdm_chan6_en = 0 (1 bit)\n\
         rx_tdm_pdm_chan7_en = 0 (1 bit)\n\
         rx_tdm_chan8_en = 0 (1 bit)\n\
         rx_tdm_chan9_en = 0 (1 bit)\n\
         rx_tdm_chan10_en = 0 (1 bit)\n\
         rx_tdm_chan11_en = 0 (1 bit)\n\
         rx_tdm_chan12_en = 0 (1 bit)\n\
         rx_tdm_chan13_en = 0 (1 bit)\n\
         rx_tdm_chan14_en = 0 (1 bit)\n\
         rx_tdm_chan15_en = 0 (1 bit)\n",
    ),
    // Sixteen slots, whose numbers have two digits.
    (
        "chip ESP32-C3\n\
         rate 44100\n\
         slots 16\n\
         active 1000000000000001\n\
         fill repeat\n\
         format 8/8\n\
         width 3\n\
         polarity low\n\
         shift yes\n\
         endianness little\n\
         order msb\n",
        Outcome::Accepted,
        "accepted: integer part 14, bit divider 2, pair 441 76, split 4 61 76 0\n\
         slot 1       2       3       4       5       6       7       8       9       10      11      12      13      14      15      16\n\
         data ########................................................................................................................########\n\
         ws   ___-----------------------------------------------------------------------------------------------------------------------------\n\
         shift: data lags word select by one bit, which is not drawn\n\
         puts of the transmit unit, in order:\n\
         tx_clkm_div_x = 4 (9 bits)\n\
         tx_clkm_div_y = 61 (9 bits)\n\
         tx_clkm_div_yn1 = 0 (1 bit)\n\
         tx_clkm_div_z = 76 (9 bits)\n\
         clk_en = 1 (1 bit)\n\
         tx_clk_active = 1 (1 bit)\n\
         tx_clk_sel = 2 (2 bits)\n\
         tx_clkm_div_num = 14 (8 bits)\n\
         tx_bck_div_num = 1 (6 bits)\n\
         tx_msb_shift = 1 (1 bit)\n\
         tx_tdm_ws_width = 2 (7 bits)\n\
         tx_bits_mod = 7 (5 bits)\n\
         tx_tdm_chan_bits = 7 (5 bits)\n\
         tx_half_sample_bits = 63 (6 bits)\n\
         tx_mono = 0 (1 bit)\n\
         tx_mono_fst_vld = 1 (1 bit)\n\
         tx_stop_en = 1 (1 bit)\n\
         tx_chan_equal = 1 (1 bit)\n\
         tx_tdm_en = 1 (1 bit)\n\
         tx_pdm_en = 0 (1 bit)\n\
         tx_pcm_bypass = 1 (1 bit)\n\
         tx_big_endian = 0 (1 bit)\n\
         tx_bit_order = 0 (1 bit)\n\
         tx_ws_idle_pol = 0 (1 bit)\n\
         tx_chan_mod = 0 (3 bits)\n\
         tx_tdm_tot_chan_num = 15 (4 bits)\n\
         tx_tdm_chan0_en = 1 (1 bit)\n\
         tx_tdm_chan1_en = 0 (1 bit)\n\
         tx_tdm_chan2_en = 0 (1 bit)\n\
         tx_tdm_chan3_en = 0 (1 bit)\n\
         tx_tdm_chan4_en = 0 (1 bit)\n\
         tx_tdm_chan5_en = 0 (1 bit)\n\
         tx_tdm_chan6_en = 0 (1 bit)\n\
         tx_tdm_chan7_en = 0 (1 bit)\n\
         tx_tdm_chan8_en = 0 (1 bit)\n\
         tx_tdm_chan9_en = 0 (1 bit)\n\
         tx_tdm_chan10_en = 0 (1 bit)\n\
         tx_tdm_chan11_en = 0 (1 bit)\n\
         tx_tdm_chan12_en = 0 (1 bit)\n\
         tx_tdm_chan13_en = 0 (1 bit)\n\
         tx_tdm_chan14_en = 0 (1 bit)\n\
         tx_tdm_chan15_en = 1 (1 bit)\n\
         tx_tdm_skip_msk_en = 0 (1 bit)\n\
         single_data = 0 (32 bits)\n\
         puts of the receive unit, in order:\n\
         rx_clkm_div_x = 4 (9 bits)\n\
         rx_clkm_div_y = 61 (9 bits)\n\
         rx_clkm_div_yn1 = 0 (1 bit)\n\
         rx_clkm_div_z = 76 (9 bits)\n\
         rx_clk_active = 1 (1 bit)\n\
         rx_clk_sel = 2 (2 bits)\n\
         rx_clkm_div_num = 14 (8 bits)\n\
         mclk_sel = 1 (1 bit)\n\
         rx_bck_div_num = 1 (6 bits)\n\
         rx_msb_shift = 1 (1 bit)\n\
         rx_tdm_ws_width = 2 (7 bits)\n\
         rx_bits_mod = 7 (5 bits)\n\
         rx_tdm_chan_bits = 7 (5 bits)\n\
         rx_half_sample_bits = 63 (6 bits)\n\
         rx_mono = 0 (1 bit)\n\
         rx_mono_fst_vld = 1 (1 bit)\n\
         rx_stop_mode = 2 (2 bits)\n\
         rx_tdm_en = 1 (1 bit)\n\
         rx_pdm_en = 0 (1 bit)\n\
         rx_pcm_bypass = 1 (1 bit)\n\
         rx_big_endian = 0 (1 bit)\n\
         rx_bit_order = 0 (1 bit)\n\
         rx_ws_idle_pol = 0 (1 bit)\n\
         rx_tdm_tot_chan_num = 15 (4 bits)\n\
         rx_tdm_pdm_chan0_en = 1 (1 bit)\n\
         rx_tdm_pdm_chan1_en = 0 (1 bit)\n\
         rx_tdm_pdm_chan2_en = 0 (1 bit)\n\
         rx_tdm_pdm_chan3_en = 0 (1 bit)\n\
         rx_tdm_pdm_chan4_en = 0 (1 bit)\n\
         rx_tdm_pdm_chan5_en = 0 (1 bit)\n\
         rx_tdm_pdm_chan6_en = 0 (1 bit)\n\
         rx_tdm_pdm_chan7_en = 0 (1 bit)\n\
         rx_tdm_chan8_en = 0 (1 bit)\n\
         rx_tdm_chan9_en = 0 (1 bit)\n\
         rx_tdm_chan10_en = 0 (1 bit)\n\
         rx_tdm_chan11_en = 0 (1 bit)\n\
         rx_tdm_chan12_en = 0 (1 bit)\n\
         rx_tdm_chan13_en = 0 (1 bit)\n\
         rx_tdm_chan14_en = 0 (1 bit)\n\
         rx_tdm_chan15_en = 1 (1 bit)\n",
    ),
    // The old chip.
    (
        "chip ESP32\n\
         rate 44100\n\
         slots 2\n\
         active 10\n\
         fill 0\n\
         format 32/32\n\
         width bit\n\
         polarity high\n\
         shift no\n",
        Outcome::Accepted,
        "accepted: integer part 14, bit divider 4, pair 29 5\n\
         slot 1                               2\n\
         data ################################................................\n\
         ws   -_______________________________________________________________\n\
         polarity: this chip stores none, and word select is drawn as written\n\
         puts of the transmit unit, in order:\n\
         tx_msb_shift = 0 (1 bit)\n\
         tx_short_sync = 1 (1 bit)\n\
         tx_fifo_mod = 3 (3 bits)\n\
         tx_fifo_mod_force_en = 1 (1 bit)\n\
         sigle_data = 0 (32 bits)\n\
         tx_chan_mod = 3 (3 bits)\n\
         puts of the receive unit, in order:\n\
         rx_msb_shift = 0 (1 bit)\n\
         rx_short_sync = 1 (1 bit)\n\
         rx_fifo_mod = 3 (3 bits)\n\
         rx_fifo_mod_force_en = 1 (1 bit)\n\
         rx_chan_mod = 1 (2 bits)\n\
         puts of the clock and of what both units share, in order:\n\
         clkm_bit22 = 1 (1 bit)\n\
         clka_ena = 0 (1 bit)\n\
         clk_en = 1 (1 bit)\n\
         clkm_div_num = 14 (8 bits)\n\
         clkm_div_a = 29 (6 bits)\n\
         clkm_div_b = 5 (6 bits)\n\
         tx_bck_div_num = 4 (6 bits)\n\
         rx_bck_div_num = 4 (6 bits)\n\
         tx_bits_mod = 32 (6 bits)\n\
         rx_bits_mod = 32 (6 bits)\n\
         tx_slave_mod = 0 (1 bit)\n\
         rx_slave_mod = 0 (1 bit)\n\
         tx_msb_right = 1 (1 bit)\n\
         rx_msb_right = 1 (1 bit)\n\
         tx_right_first = 1 (1 bit)\n\
         rx_right_first = 1 (1 bit)\n\
         tx_mono = 0 (1 bit)\n\
         rx_mono = 0 (1 bit)\n\
         sig_loopback = 0 (1 bit)\n\
         dscr_en = 1 (1 bit)\n\
         tx_pcm_bypass = 1 (1 bit)\n\
         rx_pcm_bypass = 1 (1 bit)\n\
         fifo_force_pu = 1 (1 bit)\n\
         fifo_force_pd = 0 (1 bit)\n\
         camera_en = 0 (1 bit)\n\
         lcd_en = 0 (1 bit)\n",
    ),
    // No slot is active.
    (
        "chip ESP32-C3\n\
         rate 44100\n\
         slots 2\n\
         active 00\n\
         fill repeat\n\
         format 16/16\n\
         width half\n\
         polarity low\n\
         shift yes\n\
         endianness little\n\
         order msb\n",
        Outcome::Refused(ConfigError::ChannelsOutOfRange),
        "refused by 1, ChannelsOutOfRange: active slots 0, at least 1 is needed\n",
    ),
    // Too many slots, whatever the row.
    (
        "chip ESP32-C3\n\
         rate 44100\n\
         slots 17\n\
         active 11\n\
         fill repeat\n\
         format 16/16\n\
         width half\n\
         polarity low\n\
         shift yes\n\
         endianness little\n\
         order msb\n",
        Outcome::Refused(ConfigError::ChannelsOutOfRange),
        "refused by 1, ChannelsOutOfRange: slots 17, at most 16 is possible\n",
    ),
    // No width.
    (
        "chip ESP32-C3\n\
         rate 44100\n\
         slots 2\n\
         active 11\n\
         fill repeat\n\
         format 16/16\n\
         width 0\n\
         polarity low\n\
         shift yes\n\
         endianness little\n\
         order msb\n",
        Outcome::Refused(ConfigError::WsWidthOutOfRange),
        "refused by 2, WsWidthOutOfRange: word select is active for 0 bits, from 1 to 32 is possible\n",
    ),
    // A width above the frame.
    (
        "chip ESP32-C3\n\
         rate 44100\n\
         slots 2\n\
         active 11\n\
         fill repeat\n\
         format 16/16\n\
         width 33\n\
         polarity low\n\
         shift yes\n\
         endianness little\n\
         order msb\n",
        Outcome::Refused(ConfigError::WsWidthOutOfRange),
        "refused by 2, WsWidthOutOfRange: word select is active for 33 bits, from 1 to 32 is possible\n",
    ),
    // A frame of 256 bits.
    (
        "chip ESP32-C3\n\
         rate 44100\n\
         slots 16\n\
         active 1111111111111111\n\
         fill repeat\n\
         format 16/16\n\
         width bit\n\
         polarity low\n\
         shift yes\n\
         endianness little\n\
         order msb\n",
        Outcome::Refused(ConfigError::FrameTooLong),
        "refused by 3, FrameTooLong: frame 256 bits, at most 128 is possible\n",
    ),
    // No rate.
    (
        "chip ESP32-C3\n\
         rate 0\n\
         slots 2\n\
         active 11\n\
         fill repeat\n\
         format 16/16\n\
         width half\n\
         polarity low\n\
         shift yes\n\
         endianness little\n\
         order msb\n",
        Outcome::Refused(ConfigError::RateOutOfRange),
        "refused by 4, RateOutOfRange: rate 0 Hz, at least 1 is needed\n",
    ),
    // A clock past 32 bits.
    (
        "chip ESP32-C3\n\
         rate 16777216\n\
         slots 2\n\
         active 11\n\
         fill repeat\n\
         format 16/16\n\
         width half\n\
         polarity low\n\
         shift yes\n\
         endianness little\n\
         order msb\n",
        Outcome::Refused(ConfigError::RateOutOfRange),
        "refused by 4, RateOutOfRange: a clock of 4294967296 Hz, at most 4294967295 is possible\n",
    ),
    // An integer part of 256.
    (
        "chip ESP32-C3\n\
         rate 2441\n\
         slots 2\n\
         active 11\n\
         fill repeat\n\
         format 16/16\n\
         width half\n\
         polarity low\n\
         shift yes\n\
         endianness little\n\
         order msb\n",
        Outcome::Refused(ConfigError::ClockOutOfReach),
        "refused by 5, ClockOutOfReach: integer part 256, from 1 to 255 is possible\n",
    ),
    // The same on the old chip.
    (
        "chip ESP32\n\
         rate 629977\n\
         slots 2\n\
         active 10\n\
         fill 0\n\
         format 16/16\n\
         width bit\n\
         polarity high\n\
         shift no\n",
        Outcome::Refused(ConfigError::ClockOutOfReach),
        "refused by 5, ClockOutOfReach: integer part 0, from 1 to 255 is possible\n",
    ),
    // Values that the old chip has not.
    (
        "chip ESP32\n\
         rate 44100\n\
         slots 4\n\
         active 11\n\
         fill 1\n\
         format 8/8\n\
         width slot\n\
         polarity low\n\
         shift yes\n\
         endianness little\n\
         order msb\n",
        Outcome::Unread,
        "line 3, \"slots 4\": the ESP32 has no such set-up; 2 is expected\n\
         line 4, \"active 11\": the ESP32 has no such set-up; 11 with fill repeat (stereo), 10 with fill repeat (mono), 10 with fill 0 (left) or 01 with fill 0 (right) is expected\n\
         line 6, \"format 8/8\": the ESP32 has no such set-up; 32/32 or 16/16 is expected\n\
         line 7, \"width slot\": the ESP32 has no such set-up; half or bit is expected\n\
         line 10, \"endianness little\": the ESP32 has no such key; no line for it is expected\n\
         line 11, \"order msb\": the ESP32 has no such key; no line for it is expected\n",
    ),
    // A row of three digits for two slots.
    (
        "chip ESP32-C3\n\
         rate 44100\n\
         slots 2\n\
         active 111\n\
         fill repeat\n\
         format 16/16\n\
         width half\n\
         polarity low\n\
         shift yes\n\
         endianness little\n\
         order msb\n",
        Outcome::Unread,
        "line 4, \"active 111\": the row has not as many digits as there are slots; a digit for each slot is expected\n",
    ),
    // Bad lines of each kind, and keys that no line has.
    (
        "# a remark\n\
         \n\
         chip ESP32\n\
         rat 5\n\
         rate\n\
         rate 44k1\n\
         slots 2 2\n\
         fill 1\n\
         fill 2\n\
         \twidth  65536\r\n\
         shift maybe\n\
         shift no\n\
         active 10a\n\
         order msb\n",
        Outcome::Unread,
        "line 4, \"rat 5\": no key has this name; chip, rate, slots, active, fill, format, width, polarity, shift, endianness or order is expected\n\
         line 5, \"rate\": the key has no value; hertz, a number up to 4294967295 is expected\n\
         line 6, \"rate 44k1\": the key has no such value; hertz, a number up to 4294967295 is expected\n\
         line 7, \"slots 2 2\": the key has more than one value; a number up to 255 is expected\n\
         line 9, \"fill 2\": a line before has the key; one line for each key is expected\n\
         line 10, \"\\x09width  65536\\x0d\": the key has no such value; half, slot, bit, or a number of bits up to 65535 is expected\n\
         line 11, \"shift maybe\": the key has no such value; yes or no is expected\n\
         line 13, \"active 10a\": the key has no such value; a 0 or a 1 for each slot, the first slot first, 1 to 16 of them is expected\n\
         line 14, \"order msb\": the ESP32 has no such key; no line for it is expected\n\
         no line has format; 32/32, 32/24, 32/16, 32/8, 16/16, 16/8 or 8/8 is expected\n\
         no line has polarity; high or low is expected\n",
    ),
];

#[test]
fn sheets_are_replied_to(rt: HostRuntime) -> Result<(), Fail> {
    for (sheet, outcome, text) in SHEETS.iter() {
        is_replied_to(&rt, rt.alloc(), sheet, *outcome, text)?;
    }
    Ok(())
}

fn is_replied_to(
    rt: &impl Abort,
    heap: Global,
    sheet: &str,
    outcome: Outcome,
    text: &str,
) -> Result<(), Fail> {
    let reply = reply_to(heap, sheet.as_bytes(), Reaches::of_chips())?;
    assert!(rt; reply.outcome == outcome);
    assert_eq!(rt; reply.text.as_str(), text);
    Ok(())
}
