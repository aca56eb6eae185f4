// The C interface to the reflector: each call under the prefix `testkit_`, with the call's own contract. The session
// table is a lent slice of records, which hold numbers only; what else a call takes and answers goes by value. A
// version is 4 for IPv4 and every other number for IPv6. A refusal is its number, and 0 is none.
#![tactic(auto)]

ghost use Rattle.std.specs.Prelude.{◌≡◌};
ghost use Rattle.error.specs.Answer.{answered};
ghost use Rattle.reflector_sessions.specs.Table.{table_of};
ghost use Rattle.reflector_sessions.specs.Session.{value_of, no_session};
ghost use Rattle.reflector_sessions.specs.Register.{register_session, registration_means};
ghost use Rattle.reflector_sessions.specs.Remove.{remove_session};
ghost use Rattle.reflector_answer.specs.declared.RouteTarget.{RouteTarget};
ghost use Rattle.reflector.specs.Handle.{handle_datagram};
ghost use Rattle.testkit_reflector.specs.Interface.{registered_numbers, RegistersNumbers, removed_numbers, session_of};
ghost use Rattle.testkit_reflector.specs.Interface.{RemovesNumbers, policy_numbered, policy_number, target_or};
ghost use Rattle.testkit_reflector.specs.Interface.{sequence_of, config_of, message_of, noop_number, send_number};
ghost use Rattle.testkit_reflector.specs.Interface.{no_address, no_message, address_numbers, message_numbers};
ghost use Rattle.testkit_reflector.specs.Interface.{handled_numbers, AnswersNumbers};
ghost use Rattle.testkit_reflector.specs.Claims.{SequenceReadsBack, AddressReadsBack};

use error::Refusal;
use gtpu::GtpuMessage;
use reflector_answer::{
    MultiSessionReflectorConfig, ReflectorAction, ReflectorNoopReason, ReflectorPolicy,
    ReflectorSendReason, ReflectorState, RouteTarget,
};
use reflector_sessions::{
    LentSocketAddr, ReflectorSession, Registration, SessionTable, SocketAddr,
};

// What registering answers: 0 and whether the session was added, or a refusal's number; and the used count that it
// leaves.
#[repr(C)]
#[derive(Clone, Copy)]
pub struct TestkitRegistered {
    pub number: u8,
    pub added: bool,
    pub used: usize,
}

// What removal answers: 0 and whether a session was removed, or a refusal's number; the used count that it leaves, and
// the session, or zeros.
#[repr(C)]
#[derive(Clone, Copy)]
pub struct TestkitRemoved {
    pub number: u8,
    pub removed: bool,
    pub used: usize,
    pub session: ReflectorSession,
}

impl TestkitRegistered {
    fn new(registered: Result<Registration, Refusal>, used: usize) -> Self
        ensures { result ≡ registered_numbers (registration_means registered) used }
    {
        match registered {
            Ok(registration) => Self {
                number: 0,
                added: registration == Registration::Added,
                used,
            },
            Err(refusal) => Self {
                number: refusal.number(),
                added: false,
                used,
            },
        }
    }
}

// `reflector_sessions::register_session`
#[unsafe(no_mangle)]
pub extern "C" fn testkit_register_session(
    sessions: &mut [ReflectorSession],
    used: usize,
    max_sessions: usize,
    session: ReflectorSession,
) -> TestkitRegistered
    ensures { RegistersNumbers result sessions.new
        (register_session (table_of sessions.old used max_sessions) session) }
{
    let mut table = SessionTable {
        rows: sessions,
        used,
        max_sessions,
    };
    let registered = reflector_sessions::register_session(&mut table, session);
    TestkitRegistered::new(registered, table.used)
}

// What stands where there is no session.
fn no_session() -> ReflectorSession
    ensures { result ≡ no_session }
{
    ReflectorSession {
        local_teid: 0,
        peer_teid: 0,
        peer_addr: LentSocketAddr {
            version: 0,
            address: [0; 16],
            port: 0,
        },
    }
}

impl TestkitRemoved {
    fn new(removed: Result<Option<ReflectorSession>, Refusal>, used: usize) -> Self
        ensures { result ≡ removed_numbers (answered removed) used (session_of (answered removed)) }
    {
        let none = Self {
            number: 0,
            removed: false,
            used,
            session: no_session(),
        };
        match removed {
            Ok(Some(session)) => Self {
                removed: true,
                session,
                ..none
            },
            Ok(None) => none,
            Err(refusal) => Self {
                number: refusal.number(),
                ..none
            },
        }
    }
}

// `reflector_sessions::remove_session`
#[unsafe(no_mangle)]
pub extern "C" fn testkit_remove_session(
    sessions: &mut [ReflectorSession],
    used: usize,
    max_sessions: usize,
    local_teid: u32,
) -> TestkitRemoved
    ensures { RemovesNumbers result sessions.new
        (remove_session (table_of sessions.old used max_sessions) local_teid) }
{
    let mut table = SessionTable {
        rows: sessions,
        used,
        max_sessions,
    };
    let removed = reflector_sessions::remove_session(&mut table, local_teid);
    TestkitRemoved::new(removed, table.used)
}

// What is done with G-PDUs of known sessions. Every other number routes too. These numbers and those below stay
// constants, since C's header has them and the two are compared.
pub const POLICY_ECHO: u8 = 0;

pub const POLICY_SINK_AND_COUNT: u8 = 1;

pub const POLICY_ROUTE: u8 = 2;

// What a reflector is set up with. The target counts under the policy route alone.
#[repr(C)]
#[derive(Clone, Copy)]
pub struct TestkitReflectorConfig {
    pub max_sessions: usize,
    pub recovery_counter: u8,
    pub policy: u8,
    pub target: LentSocketAddr,
    pub target_teid: u32,
}

// A GTP-U message without its payload, as it came or as it is to be sent. It has no sequence if `has_sequence` is 0; in
// a message to be sent that is 0 or 1.
#[repr(C)]
#[derive(Clone, Copy, Debug, PartialEq, Eq)]
pub struct TestkitGtpuMessage {
    pub message_type: u8,
    pub teid: u32,
    pub has_sequence: u8,
    pub sequence: u16,
}

// What is to be done with a message.
pub const ACTION_REFUSED: u8 = 0;

pub const ACTION_NOOP: u8 = 1;

pub const ACTION_SEND: u8 = 2;

// Why nothing is sent.
pub const NOOP_GPDU_SUNK: u8 = 1;

pub const NOOP_ECHO_RESPONSE_OBSERVED: u8 = 2;

pub const NOOP_ERROR_INDICATION_OBSERVED: u8 = 3;

pub const NOOP_END_MARKER_IGNORED: u8 = 4;

pub const NOOP_SUPPORTED_EXTENSION_HEADERS_NOTIFICATION_IGNORED: u8 = 5;

// Why a message is sent.
pub const SEND_REFLECTED_GPDU: u8 = 1;

pub const SEND_ROUTED_GPDU: u8 = 2;

pub const SEND_ECHO_RESPONSE: u8 = 3;

pub const SEND_ERROR_INDICATION: u8 = 4;

// What handling answers: 0 or a refusal's number; what is to be done; why nothing is sent, or 0; why a message is sent,
// or 0. `bytes` says how much of the payload to send is in the output: nothing of a routed one, which is the received
// payload. Where nothing is sent the destination is version 4 and zeros, and the message zeros.
#[repr(C)]
#[derive(Clone, Copy)]
pub struct TestkitHandled {
    pub number: u8,
    pub action: u8,
    pub noop_reason: u8,
    pub send_reason: u8,
    pub bytes: usize,
    pub destination: LentSocketAddr,
    pub message: TestkitGtpuMessage,
    pub state: ReflectorState,
}

// `From` converts one value, and stands in the crate of one of its types. So these stay functions: the policy takes a
// target too, a sequence two values, and the types of reasons and addresses are of crates below.

// The policy of a number, which holds the target if it is route.
#[tactic(auto, unfolding(crate::specs::Interface::policy_numbered))]
fn policy_of(policy: u8, target: RouteTarget) -> ReflectorPolicy
    ensures { result ≡ policy_numbered policy target }
{
    match policy {
        POLICY_ECHO => ReflectorPolicy::Echo,
        POLICY_SINK_AND_COUNT => ReflectorPolicy::SinkAndCount,
        _ => ReflectorPolicy::Route(target),
    }
}

// The number of a policy, which is read back as that policy.
#[tactic(auto, unfolding(crate::specs::Interface::policy_numbered))]
pub fn policy_number(policy: ReflectorPolicy) -> u8
    ensures { (result ≡ policy_number policy)
        × ((target : RouteTarget) → policy_numbered result (target_or policy target) ≡ policy) }
{
    match policy {
        ReflectorPolicy::Echo => POLICY_ECHO,
        ReflectorPolicy::SinkAndCount => POLICY_SINK_AND_COUNT,
        ReflectorPolicy::Route(_) => POLICY_ROUTE,
    }
}

impl From<TestkitReflectorConfig> for MultiSessionReflectorConfig {
    ghost from_gives = { λ numbers config. config ≡ config_of numbers };

    fn from(numbers: TestkitReflectorConfig) -> Self {
        let target = RouteTarget {
            destination: SocketAddr::from(numbers.target),
            teid: numbers.target_teid,
        };
        Self {
            max_sessions: numbers.max_sessions,
            recovery_counter: numbers.recovery_counter,
            policy: policy_of(numbers.policy, target),
        }
    }
}

impl From<TestkitGtpuMessage> for GtpuMessage {
    ghost from_gives = { λ numbers message. message ≡ message_of numbers };

    fn from(numbers: TestkitGtpuMessage) -> Self {
        Self {
            message_type: numbers.message_type,
            teid: numbers.teid,
            sequence_number: sequence_of(numbers.has_sequence, numbers.sequence),
        }
    }
}

#[tactic(auto, unfolding(crate::specs::Interface::sequence_of))]
fn sequence_of(has_sequence: u8, sequence: u16) -> Option<u16>
    ensures { result ≡ sequence_of has_sequence sequence }
{
    if has_sequence == 0 {
        return None;
    }
    Some(sequence)
}

fn noop_number(reason: ReflectorNoopReason) -> u8
    ensures { result ≡ noop_number reason }
{
    match reason {
        ReflectorNoopReason::GpduSunk => NOOP_GPDU_SUNK,
        ReflectorNoopReason::EchoResponseObserved => NOOP_ECHO_RESPONSE_OBSERVED,
        ReflectorNoopReason::ErrorIndicationObserved => NOOP_ERROR_INDICATION_OBSERVED,
        ReflectorNoopReason::EndMarkerIgnored => NOOP_END_MARKER_IGNORED,
        ReflectorNoopReason::SupportedExtensionHeadersNotificationIgnored => {
            NOOP_SUPPORTED_EXTENSION_HEADERS_NOTIFICATION_IGNORED
        }
    }
}

fn send_number(reason: ReflectorSendReason) -> u8
    ensures { result ≡ send_number reason }
{
    match reason {
        ReflectorSendReason::ReflectedGpdu => SEND_REFLECTED_GPDU,
        ReflectorSendReason::RoutedGpdu => SEND_ROUTED_GPDU,
        ReflectorSendReason::EchoResponse => SEND_ECHO_RESPONSE,
        ReflectorSendReason::ErrorIndication => SEND_ERROR_INDICATION,
    }
}

fn address_numbers(address: SocketAddr) -> LentSocketAddr
    ensures { result ≡ address_numbers address }
{
    let bytes = address.address;
    LentSocketAddr {
        version: address.version.number(),
        address: bytes,
        port: address.port,
    }
}

impl From<GtpuMessage> for TestkitGtpuMessage {
    ghost from_gives = { λ message numbers. numbers ≡ message_numbers message };

    fn from(message: GtpuMessage) -> Self {
        Self {
            message_type: message.message_type,
            teid: message.teid,
            has_sequence: message.sequence_number.is_some() as u8,
            sequence: message.sequence_number.unwrap_or(0),
        }
    }
}

// What stands where nothing is sent.
fn no_address() -> LentSocketAddr
    ensures { result ≡ no_address }
{
    LentSocketAddr {
        version: 4,
        address: [0; 16],
        port: 0,
    }
}

fn no_message() -> TestkitGtpuMessage
    ensures { result ≡ no_message }
{
    TestkitGtpuMessage {
        message_type: 0,
        teid: 0,
        has_sequence: 0,
        sequence: 0,
    }
}

impl TestkitHandled {
    fn new(handled: Result<ReflectorAction, Refusal>, state: ReflectorState) -> Self
        ensures { result ≡ handled_numbers (answered handled) state }
    {
        let mut told = Self {
            number: 0,
            action: ACTION_NOOP,
            noop_reason: 0,
            send_reason: 0,
            bytes: 0,
            destination: no_address(),
            message: no_message(),
            state,
        };
        match handled {
            Err(refusal) => {
                told.number = refusal.number();
                told.action = ACTION_REFUSED;
            }
            Ok(ReflectorAction::Noop(reason)) => told.noop_reason = noop_number(reason),
            Ok(ReflectorAction::Send(sent)) => {
                told.action = ACTION_SEND;
                told.send_reason = send_number(sent.reason);
                told.bytes = sent.bytes;
                told.destination = address_numbers(sent.destination);
                told.message = sent.message.into();
            }
        }
        told
    }
}

// `reflector::handle_datagram`
#[unsafe(no_mangle)]
pub extern "C" fn testkit_handle_datagram(
    sessions: &[ReflectorSession],
    used: usize,
    config: TestkitReflectorConfig,
    mut state: ReflectorState,
    source: LentSocketAddr,
    message: TestkitGtpuMessage,
    payload: &[u8],
    out: &mut [u8],
) -> TestkitHandled
    ensures { AnswersNumbers result out.new
        (handle_datagram sessions.now used (config_of config) state (value_of source)
        (message_of message) payload.now out.old)
        out.old }
{
    let handled = reflector::handle_datagram(
        sessions,
        used,
        config.into(),
        &mut state,
        source.into(),
        message.into(),
        payload,
        out,
    );
    TestkitHandled::new(handled, state)
}

// Carries that a sequence and an address which C is answered with, handed back, are the same ones.
pub fn numbers_read_back()
    ensures { SequenceReadsBack × AddressReadsBack }
{}
