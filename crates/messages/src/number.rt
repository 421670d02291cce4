// The refusal that has a number; there are numbers that no refusal has.
ghost use Rattle.messages.specs.Texts.{Numbered};

use diagram::refusal::Refusal;

pub(crate) fn numbered(number: u32) -> Option<Refusal>
    ensures { Numbered number result }
{
    match number {
        1 => Some(Refusal::NoWords),
        2 => Some(Refusal::BrokenWords),
        3 => Some(Refusal::TooManyNodes),
        4 => Some(Refusal::ShortOutput),
        5 => Some(Refusal::ShortRoom),
        6 => Some(Refusal::NoTerminal),
        7 => Some(Refusal::TooManyVariables),
        8 => Some(Refusal::BadVariable),
        9 => Some(Refusal::BadLowLink),
        10 => Some(Refusal::BadHighLink),
        11 => Some(Refusal::BrokenLowOrder),
        12 => Some(Refusal::Unreachable),
        13 => Some(Refusal::BadPointer),
        14 => Some(Refusal::ListedTerminal),
        16 => Some(Refusal::CountTooLarge),
        17 => Some(Refusal::BrokenHighOrder),
        18 => Some(Refusal::SizeTooSmall),
        19 => Some(Refusal::NothingToCut),
        21 => Some(Refusal::ShortBlock),
        22 => Some(Refusal::WrongSum),
        23 => Some(Refusal::WrongCount),
        24 => Some(Refusal::UnusedBytes),
        25 => Some(Refusal::TooManyStored),
        26 => Some(Refusal::WideVariable),
        31 => Some(Refusal::OtherVariables),
        32 => Some(Refusal::TooManyPairs),
        33 => Some(Refusal::NoSuchSlot),
        34 => Some(Refusal::WrongSlot),
        35 => Some(Refusal::OtherPool),
        36 => Some(Refusal::PoolFull),
        37 => Some(Refusal::ShortSummary),
        38 => Some(Refusal::UnknownVersion),
        39 => Some(Refusal::OutOfRange),
        46 => Some(Refusal::NoPool),
        47 => Some(Refusal::OtherSummary),
        51 => Some(Refusal::EmptyFile),
        52 => Some(Refusal::BrokenNode),
        53 => Some(Refusal::TooManyInFile),
        54 => Some(Refusal::ShortFile),
        55 => Some(Refusal::WideNode),
        _ => None,
    }
}
