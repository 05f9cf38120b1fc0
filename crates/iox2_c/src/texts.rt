//! The texts of codes. Each ends in a zero byte, as C's do.
ghost use Rattle.std.specs.Prelude.{◌≡◌};
ghost use Rattle.iox2_c.specs.Texts.{IsTextOfErrors, ended, setting_text, text_numbered, warning_text};

const UNKNOWN: &[u8] = b"unknown status code\0";

/// The text of a code, or of the kind of a warning.
#[tactic(auto, using(crate::proofs::TextsOfErrors::texts_of_errors))]
pub fn text_of(code: u32) -> &'static [u8]
    ensures text { result.now ≡ ended (text_numbered code) }
    ensures errors { IsTextOfErrors code result.now }
{
    match code / 10 {
        0 => match code {
            0 => b"done\0",
            1 => b"no domain: none was created, or it was destroyed\0",
            2 => b"stale or invalid handle\0",
            3 => b"no message is waiting\0",
            4 => b"allocation of the domain failed\0",
            5 => b"the domain exists already\0",
            6 => b"the send is blocked by a subscriber whose buffer is full\0",
            7 => b"an earlier send of the publisher is blocked\0",
            9 => b"the buffer is too small for the message\0",
            _ => UNKNOWN,
        },
        1 => match code {
            10 => b"LoanError::OutOfMemory\0",
            11 => b"LoanError::ExceedsMaxLoans\0",
            12 => b"LoanError::ExceedsMaxLoanSize\0",
            13 => b"LoanError::InternalFailure\0",
            _ => UNKNOWN,
        },
        2 => match code {
            20 => b"SendError::ConnectionBrokenSinceSenderNoLongerExists\0",
            21 => b"SendError::ConnectionCorrupted\0",
            22 => b"SendError::UnableToDeliver\0",
            23 => b"SendError::InternalError\0",
            24 => {
                b"SendError::ConnectionError(FailedToEstablishConnection(IncompatibleBufferSize))\0"
            }
            25 => b"SendError::ConnectionError(FailedToEstablishConnection(OutOfMemory))\0",
            26 => {
                b"SendError::ConnectionError(FailedToEstablishConnection(ExpiredConnectionBufferFull))\0"
            }
            27 => b"SendError::ConnectionError(UnableToMapSendersDataSegment(InternalError))\0",
            _ => UNKNOWN,
        },
        3 => match code {
            30 => b"ReceiveError::ExceedsMaxBorrows\0",
            34 => {
                b"ReceiveError::ConnectionFailure(FailedToEstablishConnection(IncompatibleBufferSize))\0"
            }
            35 => b"ReceiveError::ConnectionFailure(FailedToEstablishConnection(OutOfMemory))\0",
            36 => {
                b"ReceiveError::ConnectionFailure(FailedToEstablishConnection(ExpiredConnectionBufferFull))\0"
            }
            37 =>
                b"ReceiveError::ConnectionFailure(UnableToMapSendersDataSegment(InternalError))\0",
            _ => UNKNOWN,
        },
        4 => match code {
            44 => b"ConnectionFailure::FailedToEstablishConnection(IncompatibleBufferSize)\0",
            45 => b"ConnectionFailure::FailedToEstablishConnection(OutOfMemory)\0",
            46 => b"ConnectionFailure::FailedToEstablishConnection(ExpiredConnectionBufferFull)\0",
            47 => b"ConnectionFailure::UnableToMapSendersDataSegment(InternalError)\0",
            _ => UNKNOWN,
        },
        5 => match code {
            50 => b"PublisherCreateError::ExceedsMaxSupportedPublishers\0",
            51 => b"PublisherCreateError::UnableToCreateDataSegment\0",
            52 => b"PublisherCreateError::FailedToDeployThreadsafetyPolicy\0",
            53 => b"PublisherCreateError::UnableToCreatePortTag\0",
            _ => UNKNOWN,
        },
        6 => match code {
            60 => b"SubscriberCreateError::ExceedsMaxSupportedSubscribers\0",
            61 => b"SubscriberCreateError::BufferSizeExceedsMaxSupportedBufferSizeOfService\0",
            62 => b"SubscriberCreateError::FailedToDeployThreadsafetyPolicy\0",
            63 => b"SubscriberCreateError::UnableToCreatePortTag\0",
            _ => UNKNOWN,
        },
        7 => match code {
            70 => b"a connection has no channel with this number\0",
            71 => b"the publisher has no connection to that subscriber\0",
            _ => UNKNOWN,
        },
        8 => text_of_setting(code),
        _ => text_of_warning(code),
    }
}

// The text of an invalid setting's code.
fn text_of_setting(code: u32) -> &'static [u8]
    ensures { result.now ≡ ended (setting_text code) }
{
    match code {
        80 => {
            b"invalid struct_size: fill the struct with its function in the header of this library's version\0"
        }
        81 => { b"invalid payload_size: it must be a multiple of payload_alignment\0" }
        82 => { b"invalid payload_alignment: it must be 1, 2, 4, 8 or 16\0" }
        83 => {
            b"invalid backpressure_strategy: it must be one of iox2ps_backpressure_strategy_e\0"
        }
        84 => { b"invalid backpressure_handler: it must be one of iox2ps_backpressure_handler_e\0" }
        85 => { b"invalid degradation: it must be one of iox2ps_degradation_e\0" }
        86 => { b"invalid allocation_strategy: it must be one of iox2ps_allocation_strategy_e\0" }
        87 => {
            b"invalid initial_max_slice_len: it must be a multiple of payload_alignment, and not 0 if memory may grow\0"
        }
        88 => { b"invalid reserved_: it must be 0\0" }
        89 => {
            b"the worst case of slots is too large: lower the limits in the settings, or the number of loans\0"
        }
        _ => UNKNOWN,
    }
}

// The text of a warning's kind.
fn text_of_warning(kind: u32) -> &'static [u8]
    ensures { result.now ≡ ended (warning_text kind) }
{
    match kind {
        100 => b"Warning::ExpiredBufferRaised\0",
        101 => b"Warning::PublisherPartlyConnected\0",
        102 => b"Warning::SubscriberPartlyConnected\0",
        103 => b"Warning::ConnectionNotMade\0",
        104 => b"Warning::ExpiredDataDiscarded\0",
        _ => UNKNOWN,
    }
}
