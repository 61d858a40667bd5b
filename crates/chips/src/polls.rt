//! Polls up to an allowance, where the published driver waits for ever.
ghost use Rattle.std.specs.Prelude.{◌≡◌, ◌≤◌, IfSome};
ghost use Rattle.fields.specs.declared.Side.TheVariants.{Receive, Transmit};
ghost use Rattle.marks.specs.Marks.{after_rx_poll, after_tx_poll};
ghost use Rattle.blocks.specs.Half.{marks_on, moved, upon};
ghost use Rattle.chips.specs.PollLaws.{BusyIsUp, NoWaitNoBusy, PollsFind};
ghost use Rattle.chips.specs.Polls.{after_polls, first_found, finds, polled_by, side_of};

use blocks::RegBlock;

/// What a row of polls waits for.
#[derive(Clone, Copy)]
pub enum Awaited {
    /// The transmit half is found busy.
    TxBusy,
    /// The transmit half is found idle.
    TxIdle,
    /// The receive half's in_suc_eof stands.
    RxEof,
    /// The receive half's rx_done stands.
    RxDone,
}

/// Polls until what is awaited is found, at most `allowance` times: the polls made, the last included; none where no poll
/// found it.
#[tactic(auto, using(crate::proofs::PollLaws::polls_find, crate::proofs::PollLaws::busy_is_up, crate::proofs::PollLaws::no_wait_no_busy))]
pub fn poll_until<B: RegBlock>(block: &mut B, awaited: Awaited, allowance: u16) -> Option<u32>
    ensures answer { result ≡ first_found awaited allowance 0 (marks_on (side_of awaited) (B.tx block.old) (B.rx block.old)) }
    ensures within { IfSome result (λ polls. polls ≤ allowance) }
    ensures tx { B.tx block.new ≡ moved (upon Transmit (side_of awaited) (after_polls awaited allowance)) (B.tx block.old) }
    ensures rx { B.rx block.new ≡ moved (upon Receive (side_of awaited) (after_polls awaited allowance)) (B.rx block.old) }
    ensures common { B.common block.new ≡ B.common block.old }
    ensures find { PollsFind }
    ensures busy { BusyIsUp }
    ensures no_wait { NoWaitNoBusy }
{
    for made in 0..allowance {
        if poll(block, awaited) {
            return Some(u32::from(made) + 1);
        }
    }
    None
}

// One poll, and whether it finds what is awaited.
fn poll<B: RegBlock>(block: &mut B, awaited: Awaited) -> bool
    ensures answer { result ≡ finds awaited (marks_on (side_of awaited) (B.tx block.old) (B.rx block.old)) }
    ensures tx { B.tx block.new ≡ moved (upon Transmit (side_of awaited) (polled_by awaited)) (B.tx block.old) }
    ensures rx { B.rx block.new ≡ moved (upon Receive (side_of awaited) (polled_by awaited)) (B.rx block.old) }
    ensures common { B.common block.new ≡ B.common block.old }
{
    match awaited {
        Awaited::TxBusy => !block.poll_tx(),
        Awaited::TxIdle => block.poll_tx(),
        Awaited::RxEof => block.poll_rx().eof,
        Awaited::RxDone => block.poll_rx().done,
    }
}
