// The calls whose answers the data has.
use std::fmt;

// In the order of their kinds, from 0.
#[derive(Clone, Copy)]
pub enum Call {
    Checksum,
    BuildMeasurementTpdu,
    DecodeMeasurementTpdu,
    EchoTpdu,
    Generate,
    ValidateErrorIndicationIes,
    RecordSent,
    RecordReceivedTpdu,
    RecordReturnGtpuDatagram,
    Report,
    RegisterSession,
    RemoveSession,
    HandleDatagram,
}

// A kind of record that no call has.
#[derive(Clone, Copy)]
pub struct UnknownKind;

impl Call {
    pub const ALL: [Call; 13] = [
        Call::Checksum,
        Call::BuildMeasurementTpdu,
        Call::DecodeMeasurementTpdu,
        Call::EchoTpdu,
        Call::Generate,
        Call::ValidateErrorIndicationIes,
        Call::RecordSent,
        Call::RecordReceivedTpdu,
        Call::RecordReturnGtpuDatagram,
        Call::Report,
        Call::RegisterSession,
        Call::RemoveSession,
        Call::HandleDatagram,
    ];

    pub fn kind(self) -> u8 {
        self as u8
    }
}

impl TryFrom<u8> for Call {
    type Error = UnknownKind;

    fn try_from(kind: u8) -> Result<Self, UnknownKind> {
        Self::ALL.get(usize::from(kind)).copied().ok_or(UnknownKind)
    }
}

impl fmt::Display for Call {
    fn fmt<W: fmt::Write>(&self, f: &mut fmt::Formatter<W>) -> fmt::Result {
        f.write_str(match self {
            Call::Checksum => "checksum",
            Call::BuildMeasurementTpdu => "build_measurement_tpdu",
            Call::DecodeMeasurementTpdu => "decode_measurement_tpdu",
            Call::EchoTpdu => "echo_tpdu",
            Call::Generate => "generate",
            Call::ValidateErrorIndicationIes => "validate_error_indication_ies",
            Call::RecordSent => "record_sent",
            Call::RecordReceivedTpdu => "record_received_tpdu",
            Call::RecordReturnGtpuDatagram => "record_return_gtpu_datagram",
            Call::Report => "report",
            Call::RegisterSession => "register_session",
            Call::RemoveSession => "remove_session",
            Call::HandleDatagram => "handle_datagram",
        })
    }
}
