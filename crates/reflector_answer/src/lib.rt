// What the reflector answers (leaf 9; `handle_datagram` of the Rust's reflector.rs after its decode): its types, and
// the answer to a message whose TEID means a given session or none. Everything here is by value or on lent bytes; the
// session table is in the crate reflector_sessions. specs/Answer.antt defines the answers, and each contract is that
// definition: the answer, the counts, the error sequence and every byte of the output, on refusals too.
#![tactic(auto)]

ghost use Rattle.std.specs.Prelude.{◌≡◌, ◌≤◌, ◌++◌, length, drop, Ok, Err};
ghost use Rattle.counter.specs.Counter.{one_more};
ghost use Rattle.reflector_answer.specs.State.{GpduForwarded, MalformedRejected, state_counted, next_error_sequence};
ghost use Rattle.reflector_answer.specs.Answer.{before_address, error_indication_to, gpdu_known};
ghost use Rattle.reflector_answer.specs.Answer.{gpdu_unknown, echo_request, other_message, answer};
ghost use Rattle.reflector_answer.specs.Claims.{ReceivedHasRisen, IndicationAccepted, IndicationNamesTheTunnel};
ghost use Rattle.reflector_answer.specs.Claims.{EchoReadsBack, LeastOutput};
ghost use Rattle.reflector_answer.specs.Handle.{Answered, Answers, HandledAs, EchoFits, reflector_bytes};
ghost use Rattle.reflector_answer.specs.Handle.{handle_found, gpdu_sent};

use error::Refusal;
use gtpu::GtpuMessage;
use reflector_sessions::{ReflectorSession, SocketAddr};

// Where the policy `Route` sends G-PDUs.
#[derive(Clone, Copy)]
pub struct RouteTarget {
    pub destination: SocketAddr,
    pub teid: u32,
}

// What is done with a G-PDU of a known session.
#[derive(Clone, Copy)]
pub enum ReflectorPolicy {
    Echo,
    SinkAndCount,
    Route(RouteTarget),
}

// What a reflector is set up with.
#[derive(Clone, Copy)]
pub struct MultiSessionReflectorConfig {
    pub max_sessions: usize,
    pub recovery_counter: u8,
    pub policy: ReflectorPolicy,
}

// The reflector's counts.
#[repr(C)]
#[derive(Clone, Copy, Debug, PartialEq, Eq)]
pub struct ReflectorStats {
    pub gpdu_received: u64,
    pub gpdu_forwarded: u64,
    pub gpdu_sunk: u64,
    pub echo_requests_answered: u64,
    pub error_indications_sent: u64,
    pub malformed_rejected: u64,
}

// What changes from message to message: the counts, and the sequence number of the next Error Indication.
#[repr(C)]
#[derive(Clone, Copy, Debug, PartialEq, Eq)]
pub struct ReflectorState {
    pub stats: ReflectorStats,
    pub next_error_sequence: u16,
}

// Why a message is sent.
#[derive(Clone, Copy, Debug, PartialEq, Eq)]
pub enum ReflectorSendReason {
    ReflectedGpdu,
    RoutedGpdu,
    EchoResponse,
    ErrorIndication,
}

// Why nothing is sent.
#[derive(Clone, Copy, Debug, PartialEq, Eq)]
pub enum ReflectorNoopReason {
    GpduSunk,
    EchoResponseObserved,
    ErrorIndicationObserved,
    EndMarkerIgnored,
    SupportedExtensionHeadersNotificationIgnored,
}

// The message to send: why and where to, and how many bytes at the front of the output are its payload. A routed G-PDU
// has none there, since its payload is the received one, uncopied.
#[derive(Clone, Copy)]
pub struct OutboundMessage {
    pub reason: ReflectorSendReason,
    pub destination: SocketAddr,
    pub message: GtpuMessage,
    pub bytes: usize,
}

// What is done with a message that is not refused.
#[derive(Clone, Copy)]
pub enum ReflectorAction {
    Noop(ReflectorNoopReason),
    Send(OutboundMessage),
}

// The least output that a message is handled with.
pub const REFLECTOR_BYTES: usize = 72;

// One more of a count.
fn raise(count: &mut u64)
    ensures { count.new ≡ one_more count.old }
{
    *count = counter::one_more(*count);
}

impl ReflectorState {
    // Refuses a message that counts as malformed.
    fn reject(&mut self, refusal: Refusal) -> Result<ReflectorAction, Refusal>
        ensures { (result ≡ Err refusal) × (self.new ≡ state_counted MalformedRejected self.old) }
    {
        raise(&mut self.stats.malformed_rejected);
        Err(refusal)
    }

    // Sends a G-PDU on, to this address and TEID, without a sequence.
    fn forward(
        &mut self,
        reason: ReflectorSendReason,
        destination: SocketAddr,
        teid: u32,
        bytes: usize,
    ) -> ReflectorAction
        ensures { (result ≡ gpdu_sent reason destination teid bytes)
            × (self.new ≡ state_counted GpduForwarded self.old) }
    {
        raise(&mut self.stats.gpdu_forwarded);
        ReflectorAction::Send(OutboundMessage {
            reason,
            destination,
            message: GtpuMessage {
                message_type: gtpu::GTPU_MSG_GPDU,
                teid,
                sequence_number: None,
            },
            bytes,
        })
    }
}

// The error sequence after this one: a wrapping add, with a wrapped zero replaced by one.
#[tactic(auto, unfolding(crate::specs::State::next_error_sequence))]
fn next_error_sequence(sequence: u16) -> u16
    ensures { result ≡ next_error_sequence sequence }
{
    match sequence.wrapping_add(1) {
        0 => 1,
        next => next,
    }
}

// What stands before the address in the payload of an Error Indication: TEID Data I, and the type and the length of the
// GTP-U Peer Address.
fn before_address(teid: u32, octets: u8) -> [u8; 8]
    ensures { result ≡ before_address teid octets }
{
    let [first, second, third, fourth] = teid.to_be_bytes();
    [
        gtpu::TEID_DATA_I,
        first,
        second,
        third,
        fourth,
        gtpu::GTPU_PEER_ADDRESS,
        0,
        octets,
    ]
}

// Writes the payload of an Error Indication to the front of `out`.
fn write_error_indication(teid: u32, peer: SocketAddr, out: &mut [u8]) -> usize
    requires { 24 ≤ length out.old }
    ensures { (result ≡ length (error_indication_to teid peer))
        × (out.new ≡ error_indication_to teid peer ++ drop (length (error_indication_to teid peer))
        out.old) }
{
    let address = peer.counted();
    let octets = address.len();
    let (front, rest) = out.split_at_mut(8);
    front.copy_from_slice(&before_address(teid, octets as u8));
    rest[..octets].copy_from_slice(address);
    8 + octets
}

// A G-PDU of an unknown TEID: an Error Indication to its sender.
fn answer_unknown(
    state: &mut ReflectorState,
    source: SocketAddr,
    teid: u32,
    out: &mut [u8],
) -> ReflectorAction
    requires { 24 ≤ length out.old }
    ensures { Answers (Ok result) state.new out.new (gpdu_unknown state.old source teid) out.old }
{
    let bytes = write_error_indication(teid, source, out);
    let sequence = state.next_error_sequence;
    raise(&mut state.stats.error_indications_sent);
    state.next_error_sequence = next_error_sequence(sequence);
    ReflectorAction::Send(OutboundMessage {
        reason: ReflectorSendReason::ErrorIndication,
        destination: source,
        message: GtpuMessage {
            message_type: gtpu::GTPU_MSG_ERROR_INDICATION,
            teid: 0,
            sequence_number: Some(sequence),
        },
        bytes,
    })
}

// A G-PDU of a known session, by policy. The received count rises in every case.
fn answer_known(
    config: MultiSessionReflectorConfig,
    state: &mut ReflectorState,
    session: ReflectorSession,
    payload: &[u8],
    out: &mut [u8],
) -> Result<ReflectorAction, Refusal>
    requires { EchoFits payload.now out.old }
    ensures { Answers result state.new out.new
        (gpdu_known config state.old session payload.now) out.old }
{
    raise(&mut state.stats.gpdu_received);
    match config.policy {
        ReflectorPolicy::Echo => {
            let bytes = measurement_echo::echo_tpdu(payload, out)?;
            Ok(state.forward(
                ReflectorSendReason::ReflectedGpdu,
                SocketAddr::from(session.peer_addr),
                session.peer_teid,
                bytes,
            ))
        }
        ReflectorPolicy::SinkAndCount => {
            raise(&mut state.stats.gpdu_sunk);
            Ok(ReflectorAction::Noop(ReflectorNoopReason::GpduSunk))
        }
        ReflectorPolicy::Route(target) => Ok(state.forward(
            ReflectorSendReason::RoutedGpdu,
            target.destination,
            target.teid,
            0,
        )),
    }
}

// An Echo Request: 35, 36, or an Echo Response with the recovery counter.
fn answer_echo_request(
    config: MultiSessionReflectorConfig,
    state: &mut ReflectorState,
    source: SocketAddr,
    message: GtpuMessage,
    out: &mut [u8],
) -> Result<ReflectorAction, Refusal>
    requires { 2 ≤ length out.old }
    ensures { Answers result state.new out.new
        (echo_request config state.old source message) out.old }
{
    if message.teid != 0 {
        return state.reject(Refusal::EchoRequestTeidNotZero);
    }
    if message.sequence_number.is_none() {
        return state.reject(Refusal::EchoRequestMissingSequence);
    }
    out[0] = 14;
    out[1] = config.recovery_counter;
    raise(&mut state.stats.echo_requests_answered);
    Ok(ReflectorAction::Send(OutboundMessage {
        reason: ReflectorSendReason::EchoResponse,
        destination: source,
        message: GtpuMessage {
            message_type: gtpu::GTPU_MSG_ECHO_RESPONSE,
            teid: 0,
            sequence_number: message.sequence_number,
        },
        bytes: 2,
    }))
}

// A message of a type other than 255 and 1.
fn answer_other(state: &mut ReflectorState, message_type: u8) -> Result<ReflectorAction, Refusal>
    ensures { Answered result state.new (other_message state.old message_type) }
{
    let reason = match message_type {
        gtpu::GTPU_MSG_ECHO_RESPONSE => ReflectorNoopReason::EchoResponseObserved,
        gtpu::GTPU_MSG_ERROR_INDICATION => ReflectorNoopReason::ErrorIndicationObserved,
        gtpu::GTPU_MSG_END_MARKER => ReflectorNoopReason::EndMarkerIgnored,
        gtpu::GTPU_MSG_SUPPORTED_EXTENSION_HEADERS_NOTIFICATION => {
            ReflectorNoopReason::SupportedExtensionHeadersNotificationIgnored
        }
        _ => return state.reject(Refusal::UnsupportedMessageType),
    };
    Ok(ReflectorAction::Noop(reason))
}

// A message, by its type; the session is the one that its TEID means.
fn answer_message(
    config: MultiSessionReflectorConfig,
    state: &mut ReflectorState,
    session: Option<ReflectorSession>,
    source: SocketAddr,
    message: GtpuMessage,
    payload: &[u8],
    out: &mut [u8],
) -> Result<ReflectorAction, Refusal>
    requires { reflector_bytes ≤ length out.old }
    ensures { Answers result state.new out.new
        (answer config state.old session source message payload.now) out.old }
{
    match message.message_type {
        gtpu::GTPU_MSG_GPDU => match session {
            Some(known) => answer_known(config, state, known, payload, out),
            None => Ok(answer_unknown(state, source, message.teid, out)),
        },
        gtpu::GTPU_MSG_ECHO_REQUEST => answer_echo_request(config, state, source, message, out),
        other => answer_other(state, other),
    }
}

// Handles a message whose TEID was looked for among the used rows of a table of this length. Judges 30, 31 and 15
// first. It takes no `Sessions`: the rows were searched before, and a rehearsal has none.
pub fn handle_found(
    length: usize,
    used: usize,
    config: MultiSessionReflectorConfig,
    state: &mut ReflectorState,
    session: Option<ReflectorSession>,
    source: SocketAddr,
    message: GtpuMessage,
    payload: &[u8],
    out: &mut [u8],
) -> Result<ReflectorAction, Refusal>
    ensures { HandledAs result state.new out.new
        (handle_found length used config state.old session source message payload.now out.old)
        out.old }
{
    reflector_sessions::judge_table(length, used, config.max_sessions)?;
    if out.len() < REFLECTOR_BYTES {
        return Err(Refusal::OutputTooShort);
    }
    answer_message(config, state, session, source, message, payload, out)
}

// Carries that the walk accepts every Error Indication that the reflector answers with.
#[tactic(auto, using(crate::proofs::Claims::indication_accepted))]
pub fn indications_accepted()
    ensures { IndicationAccepted }
{}

// Carries that the walk gives back the TEID and the sender's address from each of them.
#[tactic(auto, using(crate::proofs::Claims::indication_names_the_tunnel))]
pub fn indications_name_the_tunnel()
    ensures { IndicationNamesTheTunnel }
{}

// Carries that an echo which the reflector answers with reads back to the reversed flow, with sequence and time kept.
#[tactic(auto, using(crate::proofs::Claims::echo_reads_back))]
pub fn echoes_read_back()
    ensures { EchoReadsBack }
{}

// Carries the card's (*): a T-PDU that the echo refuses has raised the received count, and nothing else.
#[tactic(auto, using(crate::proofs::Claims::received_has_risen))]
pub fn refused_echo_is_received()
    ensures { ReceivedHasRisen }
{}

// Carries that 15 means an output under 72 bytes, and nothing else.
#[tactic(auto, using(crate::proofs::Claims::least_output))]
pub fn least_output_is_72()
    ensures { LeastOutput }
{}
