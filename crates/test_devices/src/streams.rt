//! Streams, and what comes of them at a side with rings of 8 bytes and 4 slots.

/// A Send of `hi` and an Issue of 5 on channel 1, and a LimitReceiving of 10 on channel 0.
pub const THREE_FRAMES: &str = "1100026869210000000560000000000000000a";

/// A stream of a hostile peer.
#[derive(Clone, Copy)]
pub struct Hostile {
    /// An own call before it, as a line of a script.
    pub own: &'static str,
    /// Its bytes in version One, in hexadecimal.
    pub bytes: &'static str,
    /// The same in version Two: a greeting comes first, and a message's length has four bytes.
    pub in_two: &'static str,
    /// How the reading ends.
    pub end: &'static str,
    /// The channel that is looked at then.
    pub channel: u8,
    /// Its server's book: what is outstanding, buffered, and left of the limit on sending.
    pub server: &'static str,
    /// What its client holds.
    pub held: u64,
    /// What a take answers: the bytes of a message, or that there is none.
    pub taken: &'static str,
}

/// No own call, and nothing changes on channel 1.
const NOTHING: Hostile = Hostile {
    own: "",
    bytes: "",
    in_two: "",
    end: "Clean",
    channel: 1,
    server: "outstanding 0 buffered 0 None",
    held: 0,
    taken: "Ok(Empty)",
};

/// One for each violation from V1 to V7 and for each fault, one that is cut, and one that is lawful.
pub const HOSTILE: [Hostile; 13] = [
    Hostile {
        own: "issue 1 1 => Ok(())\n",
        bytes: "1100026162",
        in_two: "4c434d0211000000026162",
        end: "Violated(NotGuaranteed)",
        server: "outstanding 1 buffered 0 None",
        ..NOTHING
    },
    Hostile {
        own: "issue 1 4 => Ok(())\n",
        bytes: "5100000000000000011100026162",
        in_two: "4c434d0251000000000000000111000000026162",
        end: "Violated(SentPastLimit)",
        server: "outstanding 4 buffered 0 Some(1)",
        ..NOTHING
    },
    Hostile {
        own: "issue 1 4 => Ok(())\n",
        bytes: "3100000005",
        in_two: "4c434d023100000005",
        end: "Violated(AbsolvedTooMuch)",
        server: "outstanding 4 buffered 0 None",
        ..NOTHING
    },
    Hostile {
        bytes: "510000000000000001510000000000000002",
        in_two: "4c434d02510000000000000001510000000000000002",
        end: "Violated(SendLimitRaised)",
        server: "outstanding 0 buffered 0 Some(1)",
        ..NOTHING
    },
    Hostile {
        bytes: "6100000000000000002100000001",
        in_two: "4c434d026100000000000000002100000001",
        end: "Violated(IssuedPastLimit)",
        ..NOTHING
    },
    Hostile {
        bytes: "21010000002100000001",
        in_two: "4c434d0221010000002100000001",
        end: "Violated(TooManyGuarantees)",
        held: 16_777_216,
        ..NOTHING
    },
    Hostile {
        bytes: "610000000000000005610000000000000006",
        in_two: "4c434d02610000000000000005610000000000000006",
        end: "Violated(ReceiveLimitRaised)",
        ..NOTHING
    },
    // What is not guaranteed comes before a limit that is passed.
    Hostile {
        own: "issue 1 1 => Ok(())\n",
        bytes: "5100000000000000011100026162",
        in_two: "4c434d0251000000000000000111000000026162",
        end: "Violated(NotGuaranteed)",
        server: "outstanding 1 buffered 0 Some(1)",
        ..NOTHING
    },
    Hostile {
        bytes: "210000000577",
        in_two: "4c434d02210000000577",
        end: "Fault(BadTag)",
        held: 5,
        ..NOTHING
    },
    Hostile {
        bytes: "110000",
        in_two: "4c434d021100000000",
        end: "Fault(ZeroLength)",
        ..NOTHING
    },
    Hostile {
        bytes: "604000000000000001",
        in_two: "4c434d02604000000000000001",
        end: "Fault(BadNumber)",
        channel: 0,
        ..NOTHING
    },
    Hostile {
        own: "issue 1 8 => Ok(())\n",
        bytes: "11000261621100",
        in_two: "4c434d02110000000261621100",
        end: "Truncated",
        server: "outstanding 6 buffered 2 None",
        taken: "6162",
        ..NOTHING
    },
    Hostile {
        bytes: "604000000000000000",
        in_two: "4c434d02604000000000000000",
        channel: 0,
        ..NOTHING
    },
];

/// Streams with a Finish, which version Two alone has: each frame of the client behind it, one that is
/// cut behind it, one that is lawful, where frames of the server still come, and one where those of
/// another channel do.
pub const FINISHED: [Hostile; 7] = [
    Hostile {
        own: "issue 1 4 => Ok(())\n",
        in_two: "4c434d0271110000000161",
        end: "Violated(AfterFinish)",
        taken: "Ok(Ended)",
        ..NOTHING
    },
    Hostile {
        own: "issue 1 4 => Ok(())\n",
        in_two: "4c434d02713100000001",
        end: "Violated(AfterFinish)",
        taken: "Ok(Ended)",
        ..NOTHING
    },
    Hostile {
        in_two: "4c434d0251000000000000000171510000000000000002",
        end: "Violated(AfterFinish)",
        server: "outstanding 0 buffered 0 Some(1)",
        taken: "Ok(Ended)",
        ..NOTHING
    },
    Hostile {
        in_two: "4c434d027171",
        end: "Violated(AfterFinish)",
        taken: "Ok(Ended)",
        ..NOTHING
    },
    Hostile {
        own: "issue 1 8 => Ok(())\n",
        in_two: "4c434d0211000000026162711100",
        end: "Truncated",
        server: "outstanding 0 buffered 2 None",
        taken: "6162",
        ..NOTHING
    },
    Hostile {
        own: "issue 1 8 => Ok(())\n",
        in_two: "4c434d02110000000261627121000000054100000003610000000000000002",
        server: "outstanding 0 buffered 2 None",
        held: 5,
        taken: "6162",
        ..NOTHING
    },
    Hostile {
        own: "issue 1 8 => Ok(())\n",
        in_two: "4c434d02721100000002616272",
        end: "Violated(AfterFinish)",
        server: "outstanding 6 buffered 2 None",
        taken: "6162",
        ..NOTHING
    },
];

/// Of a write of one byte per call, of an Issue of 5 on channel 1 and one of 3 on channel 2, by the
/// call that failed, from the first on: the bytes that were written and those that were not, how many
/// of those are of the frame that was begun, and how many frames were not begun.
pub const FAILED_WRITES: [(&str, &str, u64, u64); 10] = [
    ("", "21000000052200000003", 0, 2),
    ("21", "000000052200000003", 4, 1),
    ("2100", "0000052200000003", 3, 1),
    ("210000", "00052200000003", 2, 1),
    ("21000000", "052200000003", 1, 1),
    ("2100000005", "2200000003", 0, 1),
    ("210000000522", "00000003", 4, 0),
    ("21000000052200", "000003", 3, 0),
    ("2100000005220000", "0003", 2, 0),
    ("210000000522000000", "03", 1, 0),
];
