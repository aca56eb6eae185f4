// The observer's two return calls (leaf 6; the Rust's traffic.rs): a T-PDU that came back, and a parsed GTP-U message.
// specs/Returns.antt defines what each answers and leaves, and its contract is that one equation: answer, counts and
// every column at exit, on refusals too. The message's call also promises which tunnel it hands on: specs/Tunnel.antt.
// What came back is read first; then `record_returned` judges 21 and records it.
#![tactic(auto)]

ghost use Rattle.std.specs.Prelude.{◌≡◌};
ghost use Rattle.error.specs.Answer.{answered};
ghost use Rattle.rows.specs.Columns.{SameMarked, marked_sheet};
ghost use Rattle.observer.specs.Answer.{records};
ghost use Rattle.return_calls.specs.Returns.{sequence_read, record_received_tpdu, record_return_message};
ghost use Rattle.return_calls.specs.Tunnel.{tunnel_handed_on};
ghost use Rattle.return_calls.specs.Answer.{message_means, tunnel_told, records_message};
ghost use Rattle.return_calls.specs.Reading.{tpdu_returned, message_returned, record_returned, AsRead};
ghost use Rattle.return_calls.specs.Claims.{KindIsOfType, RefusedAsRead, TunnelOfIndication, NoOtherTunnel};

use error::Refusal;
use gtpu::{GtpuMessage, RefusedTunnel};
use observer::ObserverCounts;
use rows::MarkedSheet;

// What a returned message was; an Error Indication names a tunnel.
#[derive(Clone, Copy)]
pub enum GtpuReturnDatagramOutcome {
    MeasurementTpdu,
    ErrorIndication(RefusedTunnel),
    EchoResponse,
    Ignored(u8),
}

// The sequence of a T-PDU that came back.
#[tactic(auto, using(crate::proofs::Laws::reading))]
pub fn read_sequence(tpdu: &[u8]) -> Result<u64, Refusal>
    ensures { answered result ≡ sequence_read tpdu.now }
{
    let mut src = [0; 16];
    let mut dst = [0; 16];
    Ok(measurement_decode::decode_into(tpdu, &mut src, &mut dst)?.sequence)
}

// What came back, as it was read: reading changes nothing, and 21 is judged after it.
#[derive(Clone, Copy)]
enum Returned {
    // A T-PDU of this sequence.
    Sequence(u64),
    // An Error Indication about this tunnel.
    ErrorIndication(RefusedTunnel),
    EchoResponse,
    // A message of this type.
    Ignored(u8),
}

fn read_tpdu(tpdu: &[u8]) -> Result<Returned, Refusal>
    ensures { answered result ≡ tpdu_returned (sequence_read tpdu.now) }
{
    Ok(Returned::Sequence(read_sequence(tpdu)?))
}

// What a message is by its type, with what its payload has; or 37.
#[tactic(auto, using(crate::proofs::Laws::reading_by_type))]
fn read_message(message_type: u8, payload: &[u8]) -> Result<Returned, Refusal>
    ensures { answered result ≡ message_returned message_type payload.now }
{
    match message_type {
        gtpu::GTPU_MSG_GPDU => read_tpdu(payload),
        gtpu::GTPU_MSG_ERROR_INDICATION => Ok(Returned::ErrorIndication(
            gtpu::validate_error_indication_ies(payload)?,
        )),
        gtpu::GTPU_MSG_ECHO_RESPONSE => Ok(Returned::EchoResponse),
        gtpu::GTPU_MSG_END_MARKER | gtpu::GTPU_MSG_SUPPORTED_EXTENSION_HEADERS_NOTIFICATION => Ok(
            Returned::Ignored(message_type),
        ),
        _ => Err(Refusal::UnsupportedMessageType),
    }
}

// Records what came back at this time: 21, then what was read.
fn record_returned(
    sheet: &mut MarkedSheet,
    counts: &mut ObserverCounts,
    return_timestamp_ns: u64,
    read: Result<Returned, Refusal>,
) -> Result<GtpuReturnDatagramOutcome, Refusal>
    ensures same { SameMarked sheet.old sheet.new }
    ensures recorded { records_message (marked_sheet sheet) counts result
        (λ o. record_returned o return_timestamp_ns (answered read)) }
    ensures as_read { AsRead result (answered read) }
{
    if !observer::well_formed(sheet.read(), *counts) {
        return Err(Refusal::MalformedObserver);
    }
    match read? {
        Returned::Sequence(sequence) => {
            counts.returned(rows::arrive(sheet, counts.used, return_timestamp_ns, sequence))?;
            Ok(GtpuReturnDatagramOutcome::MeasurementTpdu)
        }
        Returned::ErrorIndication(tunnel) => {
            counts.error_indicated();
            Ok(GtpuReturnDatagramOutcome::ErrorIndication(tunnel))
        }
        Returned::EchoResponse => Ok(GtpuReturnDatagramOutcome::EchoResponse),
        Returned::Ignored(message_type) => Ok(GtpuReturnDatagramOutcome::Ignored(message_type)),
    }
}

// Records a T-PDU that came back. It is read first, which changes nothing. 21 is judged before a refusal of the reader;
// if there is none, the sequence is recorded. Refuses by 21; then as the reader; then by 23, 24.
pub fn record_received_tpdu(
    sheet: &mut MarkedSheet,
    counts: &mut ObserverCounts,
    return_timestamp_ns: u64,
    tpdu: &[u8],
) -> Result<(), Refusal>
    ensures same { SameMarked sheet.old sheet.new }
    ensures recorded { records (marked_sheet sheet) counts result
        (λ o. record_received_tpdu o return_timestamp_ns tpdu.now) }
{
    record_returned(sheet, counts, return_timestamp_ns, read_tpdu(tpdu))?;
    Ok(())
}

// Records a parsed GTP-U message that came back. Its TEID and sequence are not used. Refuses by 21; then type 255 as
// `record_received_tpdu` does, 26 as the walk over its elements does, and any other type but 2, 31 and 254 by 37. The
// tunnel that an accepted Error Indication names is handed on, and changes nothing on the sheet.
pub fn record_return_gtpu_datagram(
    sheet: &mut MarkedSheet,
    counts: &mut ObserverCounts,
    return_timestamp_ns: u64,
    message: GtpuMessage,
    payload: &[u8],
) -> Result<GtpuReturnDatagramOutcome, Refusal>
    ensures same { SameMarked sheet.old sheet.new }
    ensures recorded { records_message (marked_sheet sheet) counts result
        (λ o. record_return_message o return_timestamp_ns message.message_type payload.now) }
    ensures tunnel { tunnel_told result ≡ tunnel_handed_on (message_means result) payload.now }
{
    let read = read_message(message.message_type, payload);
    record_returned(sheet, counts, return_timestamp_ns, read)
}

// Carries the claim that a T-PDU which reading refuses is refused by the same number, and leaves the sheet as it was.
pub fn refused_as_read()
    ensures { RefusedAsRead }
{}

// Carries the claim that an accepted message is of a kind that has its type.
pub fn kind_is_of_type()
    ensures { KindIsOfType }
{}

// Carries the claims on the tunnel that is handed on: an accepted Error Indication's, and none beside anything else.
pub fn tunnel_is_handed_on()
    ensures { TunnelOfIndication × NoOtherTunnel }
{}
