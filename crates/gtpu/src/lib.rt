// GTP-U (the Rust's gtpu.rs, without its codec): the message types, a parsed message, and the information elements of
// an Error Indication, document 01's leaf 8. How a list of elements is judged is defined in specs/Element.antt, and
// which tunnel an accepted list names in specs/Indication.antt (document 02, job 7).
#![tactic(auto)]

ghost use Rattle.std.specs.Prelude.{◌≡◌, ◌<◌, ◌≤◌, length, get_or};
ghost use Rattle.error.specs.Answer.{answered};
ghost use Rattle.gtpu.specs.Message.{message_types_of};
ghost use Rattle.gtpu.specs.Element.{element_types_of, value_length, other_length, element_of};
ghost use Rattle.gtpu.specs.Indication.{teid_in, version_in, address_in, indication_of};
ghost use Rattle.gtpu.specs.Firsts.{firsts_seen, firsts_after, firsts_from, Advanced};
ghost use Rattle.gtpu.specs.Firsts.{TeidData, PeerAddress};
ghost use Rattle.gtpu.specs.Claims.{SameRule, EndRule, EmptyList, ErrorIndicationAccepted, Examples};
ghost use Rattle.gtpu.specs.Tunnels.{SameAnswer, IndicationNumbers, FirstOfEach, EveryAccepted, TunnelExamples};
ghost use Rattle.gtpu.specs.Tunnels.{ErrorIndicationNames};

use error::Refusal;
use measurement::{ADDRESS_BYTES, IpVersion};

// The message types, under the Rust's names, and no enum: a message's type is any byte of the wire, and most have no
// name. `message_types` proves that they are those of specs/Message.antt.
pub const GTPU_MSG_ECHO_REQUEST: u8 = 1;

pub const GTPU_MSG_ECHO_RESPONSE: u8 = 2;

pub const GTPU_MSG_ERROR_INDICATION: u8 = 26;

pub const GTPU_MSG_SUPPORTED_EXTENSION_HEADERS_NOTIFICATION: u8 = 31;

pub const GTPU_MSG_END_MARKER: u8 = 254;

pub const GTPU_MSG_GPDU: u8 = 255;

// A parsed GTP-U message, without its payload: what the observer and the reflector are handed.
#[derive(Clone, Copy)]
pub struct GtpuMessage {
    pub message_type: u8,
    pub teid: u32,
    pub sequence_number: Option<u16>,
}

// Every message type, in the Rust's order.
pub fn message_types() -> [u8; 6]
    ensures { result ≡ message_types_of }
{
    [
        GTPU_MSG_ECHO_REQUEST,
        GTPU_MSG_ECHO_RESPONSE,
        GTPU_MSG_ERROR_INDICATION,
        GTPU_MSG_SUPPORTED_EXTENSION_HEADERS_NOTIFICATION,
        GTPU_MSG_END_MARKER,
        GTPU_MSG_GPDU,
    ]
}

// The types of the two information elements that an Error Indication must have. `element_types` proves that they are
// those of specs/Element.antt.
pub const TEID_DATA_I: u8 = 16;

pub const GTPU_PEER_ADDRESS: u8 = 133;

pub fn element_types() -> [u8; 2]
    ensures { result ≡ element_types_of }
{
    [TEID_DATA_I, GTPU_PEER_ADDRESS]
}

// TEID Data I whole: its type and 4 bytes.
const TEID_DATA_I_SIZE: usize = 5;

// Where the value begins in types 128 to 255: behind the type and a 2-byte length.
const VALUE_START: usize = 3;

// How often the walk calls itself before it hands back to the loop that started it, so that this number, and not the
// list, bounds the stack. The reflector's Error Indications have two elements.
const WALK_DEPTH: usize = 16;

// What a walk has seen: the first element of each type that an Error Indication must have, whole; and what is left of
// the list. A walk changes this and answers nothing, so that the compiler makes a loop of its calls.
#[derive(Clone, Copy)]
struct Seen<'a> {
    rest: &'a [u8],
    teid_data: Option<&'a [u8]>,
    peer_address: Option<&'a [u8]>,
}

impl<'a> Seen<'a> {
    // One element more: one of its type that was seen before stays.
    fn note(&mut self, element: &'a [u8])
        requires { 0 < length element.now }
        ensures firsts { firsts_seen self.new ≡ firsts_after (firsts_seen self.old) element.now }
        ensures rest { self.new.rest ≡ self.old.rest }
    {
        match element[0] {
            TEID_DATA_I => self.teid_data = self.teid_data.or(Some(element)),
            GTPU_PEER_ADDRESS => self.peer_address = self.peer_address.or(Some(element)),
            _ => {}
        }
    }
}

// Whether this is a GTP-U Peer Address with a length other than 4 or 16.
fn other_length(ie_type: u8, value_length: usize) -> bool
    ensures { result ≡ other_length ie_type value_length }
{
    ie_type == GTPU_PEER_ADDRESS && value_length != 4 && value_length != 16
}

// How many bytes long the value is of an element of types 128 to 255, at the front of a list.
fn value_length(list: &[u8]) -> u16
    requires { 3 ≤ length list.now }
    ensures { result ≡ value_length list.now }
{
    field::word(list[1], list[2])
}

// The size of the element at the front of a list, of types 128 to 255. A wrong length is judged before the value's end.
fn judge_variable_length(list: &[u8]) -> Result<usize, Refusal>
    requires { (0 < length list.now) × (128 ≤ get_or list.now 0 0) }
    ensures { answered result ≡ element_of list.now }
{
    if list.len() < VALUE_START {
        return Err(Refusal::TruncatedElement);
    }
    let octets = value_length(list) as usize;
    let size = VALUE_START + octets;
    if other_length(list[0], octets) {
        return Err(Refusal::InvalidPeerAddressLength);
    }
    if list.len() < size {
        return Err(Refusal::TruncatedElement);
    }
    Ok(size)
}

// The size of the element at the front of a list, its type and length included.
fn judge_element(list: &[u8]) -> Result<usize, Refusal>
    requires { 0 < length list.now }
    ensures { answered result ≡ element_of list.now }
{
    match list[0] {
        TEID_DATA_I => {
            if list.len() < TEID_DATA_I_SIZE {
                return Err(Refusal::TruncatedElement);
            }
            Ok(TEID_DATA_I_SIZE)
        }
        128..=255 => judge_variable_length(list),
        _ => Err(Refusal::UnsupportedFixedLengthElement),
    }
}

// The element at the front is judged, and what follows it is read by the same rule: by a call of the walk on the rest.
// It stops where nothing is left, in front of an element that is refused, or where the loop is to start it again.
fn walk_elements(seen: &mut Seen, calls_left: usize)
    ensures list_after { firsts_from (firsts_seen seen.new) seen.new.rest.now
        ≡ firsts_from (firsts_seen seen.old) seen.old.rest.now }
    ensures advanced { Advanced calls_left seen.old.rest.now seen.new.rest.now }
{
    if seen.rest.is_empty() || calls_left == 0 {
        return;
    }
    let Ok(size) = judge_element(seen.rest) else {
        return;
    };
    let (element, rest) = seen.rest.split_at(size);
    seen.note(element);
    seen.rest = rest;
    walk_elements(seen, calls_left - 1)
}

// The tunnel that an Error Indication is about: the TEID in its first TEID Data I, and the address in its first GTP-U
// Peer Address. Of an IPv4 address the first 4 bytes count, and the rest is 0.
#[derive(Clone, Copy)]
pub struct RefusedTunnel {
    pub teid: u32,
    pub version: IpVersion,
    pub peer_address: [u8; ADDRESS_BYTES],
}

// The TEID of a TEID Data I.
fn teid_in(element: &[u8]) -> u32
    requires { TeidData element.now }
    ensures { result ≡ teid_in element.now }
{
    field::double_word(element[1], element[2], element[3], element[4])
}

// The version of a GTP-U Peer Address: by the length of its value.
fn version_in(element: &[u8]) -> IpVersion
    requires { PeerAddress element.now }
    ensures { result ≡ version_in element.now }
{
    if value_length(element) == 4 {
        return IpVersion::V4;
    }
    IpVersion::V6
}

// The address of a GTP-U Peer Address, in 16 bytes: the rest of an IPv4 address is 0. A copy of 4 bytes into 16 zeros
// would be slower, since the next load of all 16 has to wait for it.
fn address_in(element: &[u8]) -> [u8; ADDRESS_BYTES]
    requires { PeerAddress element.now }
    ensures { result ≡ address_in element.now }
{
    if value_length(element) == 4 {
        return [
            element[3], element[4], element[5], element[6], 0, 0, 0, 0, 0, 0, 0, 0, 0, 0, 0, 0,
        ];
    }
    let mut address = [0; 16];
    address.copy_from_slice(&element[VALUE_START..VALUE_START + 16]);
    address
}

// Validate that an Error Indication payload carries the required information elements, and tell which tunnel it names.
// The payload may have any length: the loop starts the walk again where it stopped.
pub fn validate_error_indication_ies(payload: &[u8]) -> Result<RefusedTunnel, Refusal>
    ensures { answered result ≡ indication_of payload.now }
{
    let mut seen = Seen {
        rest: payload,
        teid_data: None,
        peer_address: None,
    };
    while !seen.rest.is_empty() {
        judge_element(seen.rest)?;
        walk_elements(&mut seen, WALK_DEPTH);
    }
    let teid_data = seen.teid_data.ok_or(Refusal::MissingTeidDataI)?;
    let peer_address = seen.peer_address.ok_or(Refusal::MissingPeerAddress)?;
    Ok(RefusedTunnel {
        teid: teid_in(teid_data),
        version: version_in(peer_address),
        peer_address: address_in(peer_address),
    })
}

// Carries what is claimed of the walk: each element, and the end of the list, is read by the rule of leaf 8.
pub fn elements_read_by_one_rule()
    ensures { SameRule × EndRule × EmptyList × Examples }
{}

// Carries that the payload of the reflector's Error Indication is accepted.
pub fn error_indication_accepted()
    ensures { ErrorIndicationAccepted }
{}

// Carries that telling the tunnel changes no answer: a list is refused where leaf 8 refuses it, by the same number, and
// by no other than 25 to 29.
pub fn answer_is_the_same()
    ensures { SameAnswer × IndicationNumbers }
{}

// Carries that the tunnel is that of the first element of each type, for every list that is accepted.
pub fn first_of_each_counts()
    ensures { FirstOfEach × EveryAccepted × TunnelExamples }
{}

// Carries that the payload of the reflector's Error Indication names its TEID and its address.
pub fn error_indication_names()
    ensures { ErrorIndicationNames }
{}
