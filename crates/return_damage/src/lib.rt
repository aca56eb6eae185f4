// What the way back does to the bytes of a return, as the scenario says.
#![tactic(auto)]

ghost use Rattle.std.specs.Prelude.{◌+◌, ◌<◌, ◌≤◌};

use measurement::{IPV6_TPDU_BYTES, IpVersion, layout};
use scenario::Scenario;
use word_names::Effect;

// Where the protocol stands in a T-PDU.
fn protocol_at(version: IpVersion) -> usize
    ensures { result < 72 }
{
    match version {
        IpVersion::V4 => layout::IPV4_PROTOCOL,
        IpVersion::V6 => layout::IPV6_NEXT_HEADER,
    }
}

// Where the UDP header of a T-PDU starts. The probe follows it.
fn udp_at(version: IpVersion) -> usize
    ensures { result ≤ 40 }
{
    match version {
        IpVersion::V4 => layout::IPV4_HEADER_BYTES,
        IpVersion::V6 => layout::IPV6_HEADER_BYTES,
    }
}

// Exchanges two words that follow each other: the checksum stays right.
fn exchange_words(tpdu: &mut [u8; IPV6_TPDU_BYTES], at: usize)
    requires { at + 3 < 72 }
{
    tpdu.swap(at, at + 2);
    tpdu.swap(at + 1, at + 3);
}

// Damage to the headers: the version, the protocol, the UDP length exchanged with a port, no checksum.
fn damage_headers(scenario: &Scenario, probe: u64, tpdu: &mut [u8; IPV6_TPDU_BYTES]) {
    let udp = udp_at(scenario.version());
    if scenario.does(Effect::BadVersion, probe) {
        tpdu[0] = 0x50;
    }
    if scenario.does(Effect::BadProtocol, probe) {
        tpdu[protocol_at(scenario.version())] = 6;
    }
    if scenario.does(Effect::BadLength, probe) {
        exchange_words(tpdu, udp + layout::UDP_DESTINATION_PORT);
    }
    if scenario.does(Effect::NoChecksum, probe) {
        tpdu[udp + layout::UDP_CHECKSUM] = 0;
        tpdu[udp + layout::UDP_CHECKSUM + 1] = 0;
    }
}

// Damage to the probe: a byte of its send time changed; words of its tag, or of its sequence, exchanged.
fn damage_measurement(scenario: &Scenario, probe: u64, tpdu: &mut [u8; IPV6_TPDU_BYTES]) {
    let start = udp_at(scenario.version()) + layout::UDP_HEADER_BYTES;
    if scenario.does(Effect::Damage, probe) {
        let time_end = start + layout::PROBE_SEND_TIME + 7;
        tpdu[time_end] = tpdu[time_end].wrapping_add(1);
    }
    if scenario.does(Effect::BadMagic, probe) {
        exchange_words(tpdu, start + layout::PROBE_TAG);
    }
    if scenario.does(Effect::NotSent, probe) {
        exchange_words(tpdu, start + layout::PROBE_SEQUENCE + 4);
    }
}

// What the way back does to the bytes of a probe's return.
pub fn damage(scenario: &Scenario, probe: u64, tpdu: &mut [u8; IPV6_TPDU_BYTES]) {
    damage_headers(scenario, probe, tpdu);
    damage_measurement(scenario, probe, tpdu);
}

// How many bytes of a return arrive.
pub fn length_back(scenario: &Scenario, probe: u64, length: usize) -> usize {
    if scenario.does(Effect::Empty, probe) {
        return 0;
    }
    if scenario.does(Effect::CutShort, probe) || scenario.does(Effect::CutIndication, probe) {
        return length.saturating_sub(1);
    }
    length
}
