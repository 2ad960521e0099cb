// Why the check turns a strip away, which the suite gives in its own words.
use crate::field::Field;

#[derive(Clone, Copy)]
pub(crate) enum Reason {
    Alignment,
    Lane,
    Mismatch,
    Label,
    Local,
}

impl Reason {
    // Of the suite's words a letter or two tell the reasons apart: alignment, invalid lane, type mismatch, unknown label, unknown local.
    pub(crate) fn said(words: Field) -> Option<Reason> {
        match words.text {
            [b'a', ..] => Some(Reason::Alignment),
            [b'i', ..] => Some(Reason::Lane),
            [b't', ..] => Some(Reason::Mismatch),
            [b'u', ..] => match words.field(1).text {
                [_, b'a', ..] => Some(Reason::Label),
                [_, b'o', ..] => Some(Reason::Local),
                _ => None,
            },
            _ => None,
        }
    }

    // Whether the code is the card's for the reason, and names an instruction that the code is for: LABEL br and br_if, LOCAL local.get, local.set
    // and local.tee, RESULT an `end` and OPERAND any other.
    pub(crate) fn is_told(self, code: u8, named: Option<u8>) -> bool {
        match self {
            Reason::Alignment => code == card::ALIGN,
            Reason::Lane => code == card::LANE,
            Reason::Mismatch => match named {
                Some(0x0B) => code == card::RESULT,
                _ => code == card::OPERAND,
            },
            Reason::Label => code == card::LABEL && matches!(named, Some(0x0C..=0x0D)),
            Reason::Local => code == card::LOCAL && matches!(named, Some(0x20..=0x22)),
        }
    }
}
