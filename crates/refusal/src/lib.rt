// Every refusal of the link module, its lines and the pair: one enum, one number each.
#![tactic(auto)]

ghost use Rattle.std.specs.Prelude.{◌≡◌, Some};
ghost use Rattle.refusal.specs.Refusals.{number_of, words_of, NumbersDiffer};

use std::fmt;

/// Why a call was refused.
#[derive(Clone, Copy, PartialEq, Eq, Debug)]
pub enum Refusal {
    /// The register address is above 3.
    AddressAboveThree = 1,
    /// The level is above 1: a line level is 0 or 1.
    LevelAboveOne = 2,
    /// The end is above 1: a pair's ends are 0 for A and 1 for B.
    EndAboveOne = 3,
    /// Queue write while the transmitter is held in reset (TxRS set).
    TransmitterReset = 11,
    /// Queue write while an underrun is latched (TxU set).
    UnderrunLatched = 12,
    /// Queue write with three entries in the send queue.
    SendQueueFull = 13,
    /// Draw from an empty receive queue.
    ReceiveQueueEmpty = 14,
    /// Draw while the receive queue is held after a drawn end.
    ReceiveQueueHeld = 15,
    /// Put, or send step, with every place of the line taken.
    LineFull = 16,
    /// Take, or receive step, with nothing waiting on the line.
    LineEmpty = 17,
}

impl Refusal {
    /// The refusal's number. No two refusals have the same one.
    pub fn number(self) -> u8
        ensures value { result ≡ number_of self }
        ensures differ { NumbersDiffer }
    {
        self as u8
    }
}

impl fmt::Display for Refusal {
    ghost output = { λ refusal. Some (words_of refusal) };

    fn fmt<W: fmt::Write>(&self, f: &mut fmt::Formatter<W>) -> fmt::Result {
        f.pad(match self {
            Refusal::AddressAboveThree => "register address above 3",
            Refusal::LevelAboveOne => "level above 1",
            Refusal::EndAboveOne => "end above 1",
            Refusal::TransmitterReset => "transmitter held in reset",
            Refusal::UnderrunLatched => "underrun latched",
            Refusal::SendQueueFull => "send queue full",
            Refusal::ReceiveQueueEmpty => "receive queue empty",
            Refusal::ReceiveQueueHeld => "receive queue held",
            Refusal::LineFull => "line full",
            Refusal::LineEmpty => "line empty",
        })
    }
}

#[cfg(test)]
mod tests {
    use super::*;
    use std::test::Fail;

    #[test]
    fn numbers_and_words(rt: HostRuntime) -> Result<(), Fail> {
        let all = [
            (Refusal::AddressAboveThree, 1, "register address above 3"),
            (Refusal::LevelAboveOne, 2, "level above 1"),
            (Refusal::EndAboveOne, 3, "end above 1"),
            (Refusal::TransmitterReset, 11, "transmitter held in reset"),
            (Refusal::UnderrunLatched, 12, "underrun latched"),
            (Refusal::SendQueueFull, 13, "send queue full"),
            (Refusal::ReceiveQueueEmpty, 14, "receive queue empty"),
            (Refusal::ReceiveQueueHeld, 15, "receive queue held"),
            (Refusal::LineFull, 16, "line full"),
            (Refusal::LineEmpty, 17, "line empty"),
        ];
        for (refusal, number, words) in all {
            assert_eq!(rt; refusal.number(), number);
            let text = refusal.to_string(rt.alloc())?;
            assert_eq!(rt; text.as_str(), words);
        }
        Ok(())
    }
}
