//! Sense codes and their bytes.

ghost use Rattle.std.specs.Prelude.{◌≡◌};
ghost use Rattle.plain_lun.specs.Performing.{sense_data, no_sense, illegal, reset_occurred};

/// How many bytes sense data have in the fixed form.
pub const SENSE_BYTES: usize = 18;

/// A sense key with its additional sense code and qualifier (SCSI-2 8.2.14).
#[derive(Clone, Copy, Debug, PartialEq, Eq)]
pub struct SenseCode {
    /// The sense key, 0 to 15.
    pub key: u8,
    /// The additional sense code.
    pub code: u8,
    /// Its qualifier.
    pub qualifier: u8,
}

impl SenseCode {
    /// Nothing to tell.
    pub fn no_sense() -> SenseCode
        ensures { result ≡ no_sense }
    {
        SenseCode {
            key: 0,
            code: 0,
            qualifier: 0,
        }
    }

    /// ILLEGAL REQUEST with this additional sense code.
    pub fn illegal(code: u8) -> SenseCode
        ensures { result ≡ illegal code }
    {
        SenseCode {
            key: 5,
            code,
            qualifier: 0,
        }
    }

    /// UNIT ATTENTION: a reset occurred.
    pub fn reset_occurred() -> SenseCode
        ensures { result ≡ reset_occurred }
    {
        SenseCode {
            key: 6,
            code: 0x29,
            qualifier: 0,
        }
    }

    /// Sense data in the fixed form.
    #[tactic(auto, unfolding(crate::specs::Performing::sense_data))]
    pub fn bytes(self) -> [u8; SENSE_BYTES]
        ensures { result ≡ sense_data self }
    {
        let SenseCode {
            key,
            code,
            qualifier,
        } = self;
        [
            0x70, 0, key, 0, 0, 0, 0, 0x0A, 0, 0, 0, 0, code, qualifier, 0, 0, 0, 0,
        ]
    }
}
