// The reflector's calls, each on a record of the data. A record begins with the table before the call: the used count
// (1 byte), the maximum (2) and 6 rows of 27 bytes, each both TEIDs and the peer's address; an address is version, 16
// bytes and port. Every row is compared afterwards, used or not. There is no answer where the record has what no call
// can answer: a flag above 1, or a part of an address.
#![tactic(auto)]

use reflector_answer::{ReflectorState, ReflectorStats};
use reflector_sessions::{LentSocketAddr, ReflectorSession};
use replay_data::Reader;
use testkit_reflector::{TestkitGtpuMessage, TestkitHandled, TestkitReflectorConfig};

// An address as it stands in memory: `==` of a `LentSocketAddr` passes over what does not count, and here each byte is
// compared.
#[derive(Clone, Copy, PartialEq)]
struct Address {
    version: u8,
    bytes: [u8; 16],
    port: u16,
}

impl From<LentSocketAddr> for Address {
    fn from(lent: LentSocketAddr) -> Self {
        let bytes = lent.address;
        Self {
            version: lent.version,
            bytes,
            port: lent.port,
        }
    }
}

impl Address {
    // The bytes of an IPv4 address that count are the first 4.
    fn counted(self) -> usize {
        if self.version == 4 { 4 } else { 16 }
    }

    // The same address, with zeros for the bytes that do not count.
    fn without_the_rest(mut self) -> Self {
        let counted = self.counted();
        for byte in self.bytes.iter_mut().skip(counted) {
            *byte = 0;
        }
        self
    }
}

// A session as it stands in memory.
#[derive(Clone, Copy, PartialEq)]
struct Session {
    local_teid: u32,
    peer_teid: u32,
    peer: Address,
}

impl From<ReflectorSession> for Session {
    fn from(lent: ReflectorSession) -> Self {
        Self {
            local_teid: lent.local_teid,
            peer_teid: lent.peer_teid,
            peer: Address::from(lent.peer_addr),
        }
    }
}

fn read_socket(data: &mut Reader) -> LentSocketAddr {
    LentSocketAddr {
        version: data.byte(),
        address: data.bytes(),
        port: data.word(),
    }
}

fn read_session(data: &mut Reader) -> ReflectorSession {
    ReflectorSession {
        local_teid: data.teid(),
        peer_teid: data.teid(),
        peer_addr: read_socket(data),
    }
}

fn read_rows(data: &mut Reader) -> [ReflectorSession; 6] {
    std::array::from_fn(|_| read_session(data))
}

// The rows after a call: none where the data ends before the last row's port, which is 160 bytes on.
fn rows_due(data: &mut Reader) -> Option<[Session; 6]> {
    if data.len() < 160 {
        return None;
    }
    Some(read_rows(data).map(Session::from))
}

#[derive(Clone, Copy)]
struct Table {
    used: usize,
    max_sessions: usize,
    rows: [ReflectorSession; 6],
}

fn read_table(data: &mut Reader) -> Table {
    Table {
        used: usize::from(data.byte()),
        max_sessions: usize::from(data.word()),
        rows: read_rows(data),
    }
}

// The session; whether it is added, the used count and the rows afterwards.
pub fn register_session(number: u8, mut data: Reader) -> Option<bool> {
    let table = read_table(&mut data);
    let session = read_session(&mut data);
    let due = (number, data.flag()?, usize::from(data.byte()));
    let rows_due = rows_due(&mut data)?;
    let after = reflector_by_value::register_session(
        table.rows,
        table.used,
        table.max_sessions,
        session,
    );
    let registered = after.registered;
    let answer = (registered.number, registered.added, registered.used);
    Some(answer == due && after.rows.map(Session::from) == rows_due)
}

// The TEID; whether a session is removed, the used count, that session or zeros, and the rows afterwards.
pub fn remove_session(number: u8, mut data: Reader) -> Option<bool> {
    let table = read_table(&mut data);
    let local_teid = data.teid();
    let due = (number, data.flag()?, usize::from(data.byte()));
    let session_due = Session::from(read_session(&mut data));
    let rows_due = rows_due(&mut data)?;
    let after = reflector_by_value::remove_session(
        table.rows,
        table.used,
        table.max_sessions,
        local_teid,
    );
    let removed = after.removed;
    let answer = (removed.number, removed.removed, removed.used);
    Some(
        answer == due
            && Session::from(removed.session) == session_due
            && after.rows.map(Session::from) == rows_due,
    )
}

fn read_config(max_sessions: usize, data: &mut Reader) -> TestkitReflectorConfig {
    TestkitReflectorConfig {
        max_sessions,
        recovery_counter: data.byte(),
        policy: data.byte(),
        target: read_socket(data),
        target_teid: data.teid(),
    }
}

fn read_state(data: &mut Reader) -> ReflectorState {
    ReflectorState {
        stats: ReflectorStats {
            gpdu_received: data.number(),
            gpdu_forwarded: data.number(),
            gpdu_sunk: data.number(),
            echo_requests_answered: data.number(),
            error_indications_sent: data.number(),
            malformed_rejected: data.number(),
        },
        next_error_sequence: data.word(),
    }
}

fn read_message(data: &mut Reader) -> TestkitGtpuMessage {
    TestkitGtpuMessage {
        message_type: data.byte(),
        teid: data.teid(),
        has_sequence: data.byte(),
        sequence: data.word(),
    }
}

// What is answered, with the bytes of the destination that count.
#[derive(Clone, Copy, PartialEq)]
struct Answer {
    number: u8,
    action: u8,
    noop_reason: u8,
    send_reason: u8,
    bytes: usize,
    destination: Address,
    message: TestkitGtpuMessage,
    state: ReflectorState,
}

impl From<TestkitHandled> for Answer {
    fn from(handled: TestkitHandled) -> Self {
        Self {
            number: handled.number,
            action: handled.action,
            noop_reason: handled.noop_reason,
            send_reason: handled.send_reason,
            bytes: handled.bytes,
            destination: Address::from(handled.destination).without_the_rest(),
            message: handled.message,
            state: handled.state,
        }
    }
}

// Where a message is to go: none where the data ends before the bytes that count.
fn destination_due(data: &mut Reader) -> Option<Address> {
    let left = data.len();
    let destination = Address::from(read_socket(data));
    if left <= destination.counted() {
        return None;
    }
    Some(destination.without_the_rest())
}

// Action, reason, bytes in the output, destination, the message to send, and the counts afterwards. The reason is that
// of what is done; the other is 0.
fn answer_due(number: u8, data: &mut Reader) -> Option<Answer> {
    let action = data.byte();
    let reason = data.byte();
    let sends = action == testkit_reflector::ACTION_SEND;
    Some(Answer {
        number,
        action,
        noop_reason: if sends { 0 } else { reason },
        send_reason: if sends { reason } else { 0 },
        bytes: usize::from(data.word()),
        destination: destination_due(data)?,
        message: read_message(data),
        state: read_state(data),
    })
}

// What the reflector is set up with; its counts; the source; the message's type, TEID and sequence; what is answered;
// the counts afterwards; the output's length and the output afterwards; and the payload.
pub fn handle_datagram(number: u8, mut data: Reader) -> Option<bool> {
    let table = read_table(&mut data);
    let config = read_config(table.max_sessions, &mut data);
    let state = read_state(&mut data);
    let source = read_socket(&mut data);
    let message = read_message(&mut data);
    let due = answer_due(number, &mut data)?;
    let length = usize::from(data.word());
    let out_due = data.take(length);
    let agrees = replay_data::writes(out_due, |out| {
        let handled = reflector_by_value::handle_datagram(
            table.rows,
            table.used,
            config,
            state,
            source,
            message,
            data.rest(),
            out,
        );
        Answer::from(handled) == due
    });
    Some(agrees)
}
