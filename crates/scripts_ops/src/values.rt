//! Instructions as values: one variant for each row of the instruction table.

/// What a register form does with its two bytes. `Add` is modulo 256.
#[derive(Clone, Copy, Debug, PartialEq, Eq)]
pub enum Change {
    Or,
    And,
    Add,
}

/// When a transfer control instruction acts.
#[derive(Clone, Copy, Debug, PartialEq, Eq)]
pub enum Condition {
    /// Unconditional.
    Always,
    /// The bus phase is `code`, or isn't, where `not` is set. `when` waits for the target's phase (WHEN); without
    /// it the phase that stands is compared (IF). `code` is 0 DATA_OUT, 1 DATA_IN, 2 COMMAND, 3 STATUS,
    /// 6 MSG_OUT or 7 MSG_IN.
    Phase { when: bool, not: bool, code: u8 },
    /// SFBR equals `value`, or doesn't, where `not` is set. Bits that are set in `mask` are ignored; they are 0 in
    /// `value`.
    Byte { not: bool, mask: u8, value: u8 },
}

/// Where LOAD and STORE find memory.
#[derive(Clone, Copy, Debug, PartialEq, Eq)]
pub enum Address {
    /// An absolute address.
    At(u32),
    /// DSA plus an offset of -8,388,608 to 8,388,607.
    FromDsa(i32),
}

/// An instruction of the chip. A phase is its code, a register its place in the register file. An `offset` is of
/// 24 bits with sign, from -8,388,608 to 8,388,607, and is added to DSA.
#[derive(Clone, Copy, Debug, PartialEq, Eq)]
pub enum Op {
    /// MOVE n, a, WHEN p: `count` bytes, 1 to 16,777,215, at `address`.
    Move {
        count: u32,
        address: u32,
        phase: u8,
    },
    /// MOVE FROM o, WHEN p: count and address stand in the table entry at DSA + `offset`.
    MoveFrom {
        offset: i32,
        phase: u8,
    },
    /// SELECT ATN FROM o, alt: the target stands in the table word at DSA + `offset`.
    Select {
        offset: i32,
        alternate: u32,
    },
    /// WAIT DISCONNECT.
    WaitDisconnect,
    /// WAIT RESELECT alt.
    WaitReselect {
        alternate: u32,
    },
    /// SET ACK, ATN or both.
    Set {
        ack: bool,
        atn: bool,
    },
    /// CLEAR ACK, ATN or both.
    Clear {
        ack: bool,
        atn: bool,
    },
    /// MOVE SFBR op d TO r.
    FromSfbr {
        change: Change,
        byte: u8,
        register: u8,
    },
    /// MOVE r op d TO SFBR.
    ToSfbr {
        register: u8,
        change: Change,
        byte: u8,
    },
    /// MOVE r op d TO r.
    Modify {
        register: u8,
        change: Change,
        byte: u8,
    },
    /// MOVE d TO r.
    Put {
        byte: u8,
        register: u8,
    },
    /// JUMP a.
    Jump {
        on: Condition,
        address: u32,
    },
    /// CALL a.
    Call {
        on: Condition,
        address: u32,
    },
    /// RETURN.
    Return {
        on: Condition,
    },
    /// INT v.
    Int {
        on: Condition,
        vector: u32,
    },
    /// INTFLY.
    IntFly {
        on: Condition,
    },
    /// NOP.
    Nop,
    /// MOVE MEMORY n, s, t: `count` bytes, 1 to 16,777,215.
    MoveMemory {
        count: u32,
        source: u32,
        target: u32,
    },
    /// LOAD r, n, a and LOAD r, n, FROM o: `count` bytes, 1 to 4, that don't cross the register's end.
    Load {
        register: u8,
        count: u8,
        place: Address,
    },
    /// STORE r, n, a and STORE r, n, FROM o, with the same counts.
    Store {
        register: u8,
        count: u8,
        place: Address,
    },
}
