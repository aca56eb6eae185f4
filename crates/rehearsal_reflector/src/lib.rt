// The reflector of a rehearsal: the proved one, with one session.
#![tactic(auto)]

use error::Refusal;
use gtpu::GtpuMessage;
use measurement::{InnerIpFlow, IpVersion};
use reflector_answer::{
    MultiSessionReflectorConfig, REFLECTOR_BYTES, ReflectorAction, ReflectorPolicy, ReflectorState,
    ReflectorStats,
};
use reflector_sessions::{LentSocketAddr, ReflectorSession, SocketAddr};

// The TEIDs of the session: the one under which the reflector receives, and its peer's.
const LOCAL_TEID: u32 = 0x1001;

const PEER_TEID: u32 = 0x2001;

// One that no session has.
const UNKNOWN_TEID: u32 = 0x1002;

const GTPU_PORT: u16 = 2152;

pub fn fresh() -> ReflectorState {
    ReflectorState {
        stats: ReflectorStats {
            gpdu_received: 0,
            gpdu_forwarded: 0,
            gpdu_sunk: 0,
            echo_requests_answered: 0,
            error_indications_sent: 0,
            malformed_rejected: 0,
        },
        next_error_sequence: 1,
    }
}

// 192.0.2.N or 2001:db8::N, addresses reserved for documentation (RFC 5737, RFC 3849).
fn address(version: IpVersion, last: u8) -> [u8; 16] {
    match version {
        IpVersion::V4 => [192, 0, 2, last, 0, 0, 0, 0, 0, 0, 0, 0, 0, 0, 0, 0],
        IpVersion::V6 => [
            0x20, 0x01, 0x0d, 0xb8, 0, 0, 0, 0, 0, 0, 0, 0, 0, 0, 0, last,
        ],
    }
}

pub fn flow(version: IpVersion) -> InnerIpFlow {
    InnerIpFlow {
        version,
        src: address(version, 1),
        dst: address(version, 2),
        src_port: 40000,
        dst_port: 40001,
    }
}

// The probe's own side of the tunnel.
fn sender(version: IpVersion) -> LentSocketAddr {
    LentSocketAddr {
        version: version.number(),
        address: address(version, 3),
        port: GTPU_PORT,
    }
}

// Hands a packet to the reflector, under the session's TEID or under one that no session has.
pub fn reflect(
    version: IpVersion,
    known: bool,
    state: &mut ReflectorState,
    packet: &[u8],
    out: &mut [u8; REFLECTOR_BYTES],
) -> Result<ReflectorAction, Refusal> {
    let config = MultiSessionReflectorConfig {
        max_sessions: 1,
        recovery_counter: 0,
        policy: ReflectorPolicy::Echo,
    };
    let session = ReflectorSession {
        local_teid: LOCAL_TEID,
        peer_teid: PEER_TEID,
        peer_addr: sender(version),
    };
    let (found, teid) = if known {
        (Some(session), LOCAL_TEID)
    } else {
        (None, UNKNOWN_TEID)
    };
    let message = GtpuMessage {
        message_type: gtpu::GTPU_MSG_GPDU,
        teid,
        sequence_number: None,
    };
    let source = SocketAddr::from(sender(version));
    reflector_answer::handle_found(1, 1, config, state, found, source, message, packet, out)
}
