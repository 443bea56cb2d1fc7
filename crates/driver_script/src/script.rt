//! The driver script, instruction by instruction, from address 0 on.

use crate::labels::{
    ABORTED, ALLMOVED, COMPLETE, CUT, DATA, DISPATCH, LEAVE, MSG, PUT, RESELECT, RESTORE, SAVE,
    START, STATUS, TAG,
};
use chip_regs::places::{CTEST2, DSA, DSA1, SCRATCHA, SCRATCHB, SFBR, SSID, TEMP};
use cmd_block::offsets;
use host_map::{
    ABORT_TAG, BADTASK_ADDRESS, CHAINS, CUR, CUT_STATE, DONEP, ENDED_STATE, FRONT,
    FRONT_IDLE_ADDRESS, MSGIN, NO_TARGET_STATE, OPEN_ADDRESS, OVER_ADDRESS, RINGP,
};
use scripts_ops::{Address, Change, Condition, Op};
use scsi_words::phase_codes::{
    COMMAND, DATA_IN, DATA_OUT, MSG_IN, MSG_OUT, STATUS as STATUS_PHASE,
};

// Offsets in a slot of a ring, and of a tag's entry in its table.
const SLOT_BLOCK: i32 = 0x00;

const SLOT_LINK: i32 = 0x04;

const ENTRY: i32 = 0x00;

// Places inside the part that version 2 adds for tag tables.

const TABLE_1: u32 = 0x480;

const TABLE_2: u32 = 0x490;

const TABLE_3: u32 = 0x4a0;

const TABLE_FOUND: u32 = 0x4a8;

const TAG_OFFSET: u32 = 0x190;

const RETURN: Op = Op::Return {
    on: Condition::Always,
};

const CLEAR_ACK: Op = Op::Clear {
    ack: true,
    atn: false,
};

const TAG_OF_SFBR: Op = Op::ToSfbr {
    register: SFBR,
    change: Change::And,
    byte: 0xfc,
};

macro_rules! load {
    ($register:expr, $address:expr) => {
        Op::Load { register: $register, count: 4, place: Address::At($address) }
    };
}

macro_rules! load_from {
    ($register:expr, $offset:expr) => {
        Op::Load { register: $register, count: 4, place: Address::FromDsa($offset) }
    };
}

macro_rules! store {
    ($register:expr, $address:expr) => {
        Op::Store { register: $register, count: 4, place: Address::At($address) }
    };
}

macro_rules! store_from {
    ($register:expr, $offset:expr) => {
        Op::Store { register: $register, count: 4, place: Address::FromDsa($offset) }
    };
}

macro_rules! move_from {
    ($offset:expr, $phase:expr) => {
        Op::MoveFrom { offset: $offset, phase: $phase }
    };
}

macro_rules! move_segment {
    ($number:expr, $phase:expr) => {
        Op::MoveFrom { offset: offsets::SEGMENT_0 + 8 * $number, phase: $phase }
    };
}

macro_rules! move_byte {
    ($address:expr, $phase:expr) => {
        Op::Move { count: 1, address: $address, phase: $phase }
    };
}

macro_rules! jump {
    ($address:expr) => {
        Op::Jump { on: Condition::Always, address: $address }
    };
}

macro_rules! jump_when {
    ($phase:expr, $address:expr) => {
        Op::Jump { on: Condition::Phase { when: true, not: false, code: $phase }, address: $address }
    };
}

macro_rules! jump_if_phase {
    ($phase:expr, $address:expr) => {
        Op::Jump { on: Condition::Phase { when: false, not: false, code: $phase }, address: $address }
    };
}

macro_rules! jump_if_byte {
    ($value:expr, $mask:expr, $address:expr) => {
        Op::Jump { on: Condition::Byte { not: false, mask: $mask, value: $value }, address: $address }
    };
}

macro_rules! int {
    ($vector:expr) => {
        Op::Int { on: Condition::Always, vector: $vector }
    };
}

/// The instructions of version 1. Version 2 has another one at 188: it jumps to the part that finds the tag's table.
pub static SCRIPT: [Op; 151] = [
    // START: clears SIGP, and goes where the block at FRONT says.
    Op::ToSfbr {
        register: CTEST2,
        change: Change::Or,
        byte: 0x00,
    },
    load!(DSA, FRONT),
    load_from!(TEMP, offsets::START),
    RETURN,
    // RING: goes where the block in the next start slot says. SCRATCHB has the slot behind it.
    load!(DSA, RINGP),
    load_from!(SCRATCHB, SLOT_LINK),
    load_from!(DSA, SLOT_BLOCK),
    load_from!(TEMP, offsets::START),
    RETURN,
    // WAITR: nothing is to start.
    Op::WaitReselect { alternate: START },
    // RESELECT: a target has reselected.
    Op::ToSfbr {
        register: SSID,
        change: Change::And,
        byte: 0x07,
    },
    jump!(CHAINS),
    // SELECT: starts a command, passes its slot and opens its gate.
    Op::Select {
        offset: offsets::SEL,
        alternate: RESELECT,
    },
    store!(SCRATCHB, RINGP),
    load!(SCRATCHA, OPEN_ADDRESS),
    store_from!(SCRATCHA, offsets::GATE),
    move_from!(offsets::MSG, MSG_OUT),
    move_from!(offsets::CMD, COMMAND),
    // DISPATCH: does what the target asks for.
    jump_when!(MSG_IN, MSG),
    jump_if_phase!(STATUS_PHASE, STATUS),
    jump_if_phase!(DATA_IN, DATA),
    jump_if_phase!(DATA_OUT, DATA),
    int!(1),
    // DATA: goes to the move that the active pointer names.
    load_from!(TEMP, offsets::LASTP),
    RETURN,
    // STATUS
    move_from!(offsets::STAT, STATUS_PHASE),
    jump!(DISPATCH),
    // MSG
    move_byte!(MSGIN, MSG_IN),
    jump_if_byte!(0x00, 0x00, COMPLETE),
    jump_if_byte!(0x02, 0x00, SAVE),
    jump_if_byte!(0x03, 0x00, RESTORE),
    jump_if_byte!(0x04, 0x00, LEAVE),
    int!(2),
    // SAVE: the saved pointer becomes the active one.
    load_from!(SCRATCHA, offsets::LASTP),
    store_from!(SCRATCHA, offsets::SAVEP),
    CLEAR_ACK,
    jump!(DISPATCH),
    // RESTORE: the active pointer becomes the saved one.
    load_from!(SCRATCHA, offsets::SAVEP),
    store_from!(SCRATCHA, offsets::LASTP),
    CLEAR_ACK,
    jump!(DISPATCH),
    // LEAVE: the target disconnects.
    CLEAR_ACK,
    Op::WaitDisconnect,
    jump!(START),
    // TAG: after IDENTIFY at a reselection. DSA is the unit's first tag table; the tag's block becomes DSA.
    CLEAR_ACK,
    move_byte!(MSGIN, MSG_IN),
    Op::Int {
        on: Condition::Byte {
            not: true,
            mask: 0,
            value: 0x20,
        },
        vector: 3,
    },
    CLEAR_ACK,
    move_byte!(MSGIN, MSG_IN),
    TAG_OF_SFBR,
    Op::FromSfbr {
        change: Change::Or,
        byte: 0x00,
        register: DSA,
    },
    load_from!(DSA, ENTRY),
    load_from!(TEMP, offsets::GATE),
    RETURN,
    // OPEN
    load_from!(TEMP, offsets::RESTART),
    RETURN,
    // BADTASK
    int!(4),
    // COMPLETE
    CLEAR_ACK,
    // TAIL: the target ended the command.
    Op::WaitDisconnect,
    load!(SCRATCHA, ENDED_STATE),
    jump!(PUT),
    // ABORTED
    Op::WaitDisconnect,
    jump!(CUT),
    // CANCEL: an aborted command leaves the ring before its selection.
    store!(SCRATCHB, RINGP),
    // CUT
    load!(SCRATCHA, CUT_STATE),
    jump!(PUT),
    // NOTARGET: the selection timed out.
    store!(SCRATCHB, RINGP),
    load!(SCRATCHA, NO_TARGET_STATE),
    // PUT: sets STATE, shuts the gate and enters the block into the done ring.
    store_from!(SCRATCHA, offsets::STATE),
    load!(SCRATCHA, BADTASK_ADDRESS),
    store_from!(SCRATCHA, offsets::GATE),
    store!(DSA, CUR),
    load!(SCRATCHA, CUR),
    load!(DSA, DONEP),
    store_from!(SCRATCHA, SLOT_BLOCK),
    load_from!(SCRATCHB, SLOT_LINK),
    store!(SCRATCHB, DONEP),
    Op::IntFly {
        on: Condition::Always,
    },
    jump!(START),
    // ABORT: sends ABORT TAG to a target that reselected for an aborted command.
    Op::Set {
        ack: false,
        atn: true,
    },
    CLEAR_ACK,
    move_byte!(ABORT_TAG, MSG_OUT),
    // DROPPED
    jump!(ABORTED),
    // RESETJOB: sends the message of the reset job.
    Op::Select {
        offset: offsets::SEL,
        alternate: RESELECT,
    },
    move_from!(offsets::MSG, MSG_OUT),
    Op::WaitDisconnect,
    int!(5),
    // OVER: the target wants more data than there is.
    int!(6),
    // DATAIN: segment by segment.
    move_segment!(0, DATA_IN),
    move_segment!(1, DATA_IN),
    move_segment!(2, DATA_IN),
    move_segment!(3, DATA_IN),
    move_segment!(4, DATA_IN),
    move_segment!(5, DATA_IN),
    move_segment!(6, DATA_IN),
    move_segment!(7, DATA_IN),
    move_segment!(8, DATA_IN),
    move_segment!(9, DATA_IN),
    move_segment!(10, DATA_IN),
    move_segment!(11, DATA_IN),
    move_segment!(12, DATA_IN),
    move_segment!(13, DATA_IN),
    move_segment!(14, DATA_IN),
    move_segment!(15, DATA_IN),
    // INDONE: all segments were read.
    jump!(ALLMOVED),
    // DATAOUT
    move_segment!(0, DATA_OUT),
    move_segment!(1, DATA_OUT),
    move_segment!(2, DATA_OUT),
    move_segment!(3, DATA_OUT),
    move_segment!(4, DATA_OUT),
    move_segment!(5, DATA_OUT),
    move_segment!(6, DATA_OUT),
    move_segment!(7, DATA_OUT),
    move_segment!(8, DATA_OUT),
    move_segment!(9, DATA_OUT),
    move_segment!(10, DATA_OUT),
    move_segment!(11, DATA_OUT),
    move_segment!(12, DATA_OUT),
    move_segment!(13, DATA_OUT),
    move_segment!(14, DATA_OUT),
    move_segment!(15, DATA_OUT),
    // ALLMOVED: no data is left; the active pointer says so.
    load!(SCRATCHA, OVER_ADDRESS),
    store_from!(SCRATCHA, offsets::LASTP),
    jump!(DISPATCH),
    // PMIN0, PMIN1: the rest of a move in that was broken off, then what was behind it.
    move_from!(offsets::CONTEXT_0, DATA_IN),
    load_from!(TEMP, offsets::RETURN_0),
    RETURN,
    move_from!(offsets::CONTEXT_1, DATA_IN),
    load_from!(TEMP, offsets::RETURN_1),
    RETURN,
    // PMOUT0, PMOUT1: the same for a move out.
    move_from!(offsets::CONTEXT_0, DATA_OUT),
    load_from!(TEMP, offsets::RETURN_0),
    RETURN,
    move_from!(offsets::CONTEXT_1, DATA_OUT),
    load_from!(TEMP, offsets::RETURN_1),
    RETURN,
    // SENSE: starts a REQUEST SENSE from FRONT, which becomes idle.
    Op::Select {
        offset: offsets::SEL,
        alternate: RESELECT,
    },
    load!(SCRATCHA, FRONT_IDLE_ADDRESS),
    store!(SCRATCHA, FRONT),
    jump!(0x70),
    // Version 2: SFBR has a tag of any value; DSA becomes the table of its two low bits.
    jump_if_byte!(0x01, 0xfc, TABLE_1),
    jump_if_byte!(0x02, 0xfc, TABLE_2),
    jump_if_byte!(0x03, 0xfc, TABLE_3),
    jump!(TABLE_FOUND),
    Op::Modify {
        register: DSA1,
        change: Change::Or,
        byte: 0x01,
    },
    jump!(TABLE_FOUND),
    Op::Modify {
        register: DSA1,
        change: Change::Or,
        byte: 0x02,
    },
    jump!(TABLE_FOUND),
    Op::Modify {
        register: DSA1,
        change: Change::Or,
        byte: 0x03,
    },
    TAG_OF_SFBR,
    jump!(TAG_OFFSET),
];
