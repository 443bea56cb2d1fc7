//! The labels of the driver script.
ghost use Rattle.std.specs.Prelude.{◌≡◌};
ghost use Rattle.driver_script.specs.Script.{label_of};

pub const START: u32 = 0x000;

pub const RING: u32 = 0x020;

pub const WAITR: u32 = 0x048;

pub const RESELECT: u32 = 0x050;

pub const SELECT: u32 = 0x060;

pub const DISPATCH: u32 = 0x090;

pub const DATA: u32 = 0x0b8;

pub const STATUS: u32 = 0x0c8;

pub const MSG: u32 = 0x0d8;

pub const SAVE: u32 = 0x108;

pub const RESTORE: u32 = 0x128;

pub const LEAVE: u32 = 0x148;

pub const TAG: u32 = 0x160;

pub const OPEN: u32 = 0x1b0;

pub const BADTASK: u32 = 0x1c0;

pub const COMPLETE: u32 = 0x1c8;

pub const TAIL: u32 = 0x1d0;

pub const ABORTED: u32 = 0x1e8;

pub const CANCEL: u32 = 0x1f8;

pub const CUT: u32 = 0x200;

pub const NOTARGET: u32 = 0x210;

pub const PUT: u32 = 0x220;

pub const ABORT: u32 = 0x278;

pub const DROPPED: u32 = 0x290;

pub const RESETJOB: u32 = 0x298;

pub const OVER: u32 = 0x2b8;

pub const DATAIN: u32 = 0x2c0;

pub const INDONE: u32 = 0x340;

pub const DATAOUT: u32 = 0x348;

pub const ALLMOVED: u32 = 0x3c8;

pub const PMIN0: u32 = 0x3e0;

pub const PMIN1: u32 = 0x3f8;

pub const PMOUT0: u32 = 0x410;

pub const PMOUT1: u32 = 0x428;

pub const SENSE: u32 = 0x440;

/// A label of the driver script.
#[derive(Clone, Copy, Debug, PartialEq, Eq)]
pub enum Name {
    /// Clears SIGP and goes where the block at FRONT says.
    Start,
    /// Goes where the block in the next start slot says.
    Ring,
    /// Waits for a reselection.
    Waitr,
    /// Finds the unit that reselects.
    Reselect,
    /// Starts a command.
    Select,
    /// Does what the target asks for.
    Dispatch,
    /// Goes to the move that the active data pointer names.
    Data,
    /// Reads the status byte.
    Status,
    /// Reads a message.
    Msg,
    /// Saves the data pointer.
    Save,
    /// Restores the data pointer.
    Restore,
    /// The target disconnects.
    Leave,
    /// Reads the tag of a reselection.
    Tag,
    /// Goes where the block says at a reselection.
    Open,
    /// Stops: no command waits for this reselection.
    Badtask,
    /// The command is complete.
    Complete,
    /// Waits until the bus is free, then ends the command.
    Tail,
    /// Waits until the bus is free, then cuts the command.
    Aborted,
    /// Passes the slot of an aborted command.
    Cancel,
    /// Ends a command as cut.
    Cut,
    /// Ends a command whose target did not answer.
    Notarget,
    /// Enters the block into the done ring.
    Put,
    /// Sends ABORT TAG.
    Abort,
    /// The target dropped the command.
    Dropped,
    /// Sends the message of a device reset.
    Resetjob,
    /// Stops: the target wants more data than there is.
    Over,
    /// The 16 segment moves in.
    Datain,
    /// All segments were read.
    Indone,
    /// The 16 segment moves out.
    Dataout,
    /// No data is left.
    Allmoved,
    /// The move in of mismatch context 0.
    Pmin0,
    /// The move in of mismatch context 1.
    Pmin1,
    /// The move out of mismatch context 0.
    Pmout0,
    /// The move out of mismatch context 1.
    Pmout1,
    /// Starts a REQUEST SENSE from FRONT.
    Sense,
}

/// The address of a label in the driver script, the same in both versions.
pub fn label(name: Name) -> u32
    ensures { result ≡ label_of name }
{
    match name {
        Name::Start => START,
        Name::Ring => RING,
        Name::Waitr => WAITR,
        Name::Reselect => RESELECT,
        Name::Select => SELECT,
        Name::Dispatch => DISPATCH,
        Name::Data => DATA,
        Name::Status => STATUS,
        Name::Msg => MSG,
        Name::Save => SAVE,
        Name::Restore => RESTORE,
        Name::Leave => LEAVE,
        Name::Tag => TAG,
        Name::Open => OPEN,
        Name::Badtask => BADTASK,
        Name::Complete => COMPLETE,
        Name::Tail => TAIL,
        Name::Aborted => ABORTED,
        Name::Cancel => CANCEL,
        Name::Cut => CUT,
        Name::Notarget => NOTARGET,
        Name::Put => PUT,
        Name::Abort => ABORT,
        Name::Dropped => DROPPED,
        Name::Resetjob => RESETJOB,
        Name::Over => OVER,
        Name::Datain => DATAIN,
        Name::Indone => INDONE,
        Name::Dataout => DATAOUT,
        Name::Allmoved => ALLMOVED,
        Name::Pmin0 => PMIN0,
        Name::Pmin1 => PMIN1,
        Name::Pmout0 => PMOUT0,
        Name::Pmout1 => PMOUT1,
        Name::Sense => SENSE,
    }
}
