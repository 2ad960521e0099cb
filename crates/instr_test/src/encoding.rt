// Structs encoded.
use crate::row;
use crate::row::UNTOUCHED;
use hexadecimal::Unminded;
use instr::Instr;
use std::io;

// Immediates that the struct's instruction lacks are among these.
const ZEROS: Instr = Instr {
    first: 0,
    number: 0,
    index: 0,
    word: 0,
    long: 0,
    align: 0,
    offset: 0,
    lane: 0,
    block: 0,
    bytes: [0; 16],
};

const ONES: Instr = Instr {
    index: 1,
    word: 1,
    long: 1,
    align: 1,
    offset: 1,
    lane: 1,
    bytes: [1; 16],
    ..ZEROS
};

const GREATEST: Instr = Instr {
    index: u32::MAX,
    word: u32::MAX,
    long: u64::MAX,
    align: u32::MAX,
    offset: u32::MAX,
    lane: 255,
    bytes: [255; 16],
    ..ZEROS
};

// Any struct: immediates that the instruction lacks are not read.
const STRUCTS: [Instr; 22] = [
    Instr {
        first: 106,
        number: u32::MAX,
        ..GREATEST
    },
    Instr {
        first: 11,
        number: 5,
        ..GREATEST
    },
    GREATEST,
    Instr {
        first: 253,
        number: 154,
        ..GREATEST
    },
    Instr {
        first: 253,
        number: 256,
        ..GREATEST
    },
    Instr {
        first: 253,
        number: u32::MAX,
        ..GREATEST
    },
    Instr {
        first: 253,
        number: 228,
        ..GREATEST
    },
    Instr {
        first: 32,
        number: 9,
        index: 300,
        ..ONES
    },
    Instr {
        first: 65,
        number: 9,
        word: 2147483648,
        ..ONES
    },
    Instr {
        first: 66,
        number: 9,
        long: 9223372036854775808,
        align: 9,
        offset: 9,
        lane: 9,
        bytes: [9; 16],
        ..ONES
    },
    Instr {
        first: 253,
        number: 110,
        align: 99,
        offset: 99,
        lane: 99,
        bytes: [99; 16],
        ..ONES
    },
    Instr {
        first: 253,
        align: 4,
        offset: u32::MAX,
        lane: 255,
        bytes: [255; 16],
        ..ZEROS
    },
    Instr {
        first: 253,
        align: 5,
        ..ZEROS
    },
    Instr {
        first: 253,
        number: 84,
        align: 1,
        lane: 16,
        ..ZEROS
    },
    Instr {
        first: 253,
        number: 84,
        align: 1,
        lane: 15,
        ..ZEROS
    },
    Instr {
        first: 253,
        number: 84,
        lane: 16,
        ..ZEROS
    },
    Instr {
        first: 253,
        number: 91,
        align: 3,
        offset: 128,
        lane: 1,
        ..ZEROS
    },
    Instr {
        first: 253,
        number: 30,
        align: 99,
        lane: 2,
        ..ZEROS
    },
    Instr {
        first: 253,
        number: 30,
        align: 99,
        lane: 1,
        ..ZEROS
    },
    Instr {
        first: 253,
        number: 13,
        bytes: [31; 16],
        ..ZEROS
    },
    Instr {
        first: 253,
        number: 13,
        bytes: [32; 16],
        ..ZEROS
    },
    Instr {
        first: 253,
        number: 12,
        bytes: [255; 16],
        ..ZEROS
    },
];

// Into two bytes of room.
const SMALL: [Instr; 7] = [
    Instr {
        first: 32,
        index: 127,
        ..ZEROS
    },
    Instr {
        first: 32,
        index: 128,
        ..ZEROS
    },
    Instr {
        first: 253,
        number: 154,
        ..ZEROS
    },
    Instr {
        first: 253,
        number: 21,
        lane: 16,
        ..ZEROS
    },
    Instr {
        first: 253,
        number: 21,
        lane: 15,
        ..ZEROS
    },
    Instr { first: 11, ..ZEROS },
    Instr {
        first: 253,
        number: 12,
        bytes: [7; 16],
        ..ZEROS
    },
];

// Encoding asks 4, 7, 8, 6, 10, 11, 24, each before the others: all that follows is wrong too. What an instruction lacks is not read.
// Version, first byte, number after it, exponent, lane, block type; into one byte of room.
const ORDERS: [(u16, u8, u32, u32, u8, u8); 31] = [
    (0, 0, 0, 9, 99, 65),
    (3, 0, 0, 9, 99, 65),
    (3, 11, 0, 9, 99, 65),
    (65535, 11, 0, 0, 0, 64),
    (2, 0, 0, 9, 99, 65),
    (2, 4, 0, 9, 99, 64),
    (2, 253, 154, 9, 99, 65),
    (2, 253, 256, 9, 99, 65),
    (1, 2, 0, 9, 99, 65),
    (1, 3, 0, 9, 99, 64),
    (1, 12, 0, 9, 99, 64),
    (1, 13, 0, 9, 99, 64),
    (1, 69, 0, 9, 99, 64),
    (1, 73, 0, 9, 99, 64),
    (2, 253, 228, 9, 99, 65),
    (2, 2, 0, 9, 99, 65),
    (2, 3, 0, 9, 99, 125),
    (2, 2, 0, 9, 99, 0),
    (2, 253, 84, 9, 99, 65),
    (2, 253, 13, 9, 99, 65),
    (2, 253, 84, 9, 15, 65),
    (2, 253, 0, 9, 99, 65),
    (2, 253, 84, 0, 15, 65),
    (2, 2, 0, 9, 99, 64),
    (2, 3, 0, 9, 99, 123),
    (2, 12, 0, 9, 99, 65),
    (2, 13, 0, 9, 99, 65),
    (2, 69, 0, 9, 99, 65),
    (2, 73, 0, 9, 99, 65),
    (2, 11, 0, 9, 99, 65),
    (1, 11, 0, 9, 99, 65),
];

// The same, with room for all.
const WRITTEN: [(u16, u8, u32, u32, u8, u8); 9] = [
    (2, 2, 0, 9, 99, 126),
    (2, 3, 1, 9, 99, 127),
    (2, 12, 0, 9, 99, 65),
    (2, 13, 0, 9, 99, 65),
    (2, 69, 2, 9, 99, 65),
    (2, 73, 3, 9, 99, 65),
    (2, 253, 84, 0, 15, 65),
    (1, 12, 0, 9, 99, 64),
    (3, 12, 0, 9, 99, 64),
];

pub(crate) fn structs(out: Unminded) -> io::Result<()> {
    for i in STRUCTS {
        row::encoded(out, &mut [UNTOUCHED; 24], 1, i)?;
    }
    for i in SMALL {
        row::encoded(out, &mut [UNTOUCHED; 2], 1, i)?;
    }
    Ok(())
}

pub(crate) fn orders(out: Unminded) -> io::Result<()> {
    for (version, first, number, align, lane, block) in ORDERS {
        let i = any(first, number, align, lane, block);
        row::encoded(out, &mut [UNTOUCHED; 1], version, i)?;
    }
    for (version, first, number, align, lane, block) in WRITTEN {
        let i = any(first, number, align, lane, block);
        row::encoded(out, &mut [UNTOUCHED; 24], version, i)?;
    }
    Ok(())
}

// With an index of two bytes, and nothing zero but what is asked for.
fn any(first: u8, number: u32, align: u32, lane: u8, block: u8) -> Instr {
    Instr {
        first,
        number,
        index: 300,
        align,
        offset: 128,
        lane,
        block,
        bytes: [255; 16],
        ..ONES
    }
}
