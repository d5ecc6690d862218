//! Books that are made of their fields, and which fields make none.
use super::books::{shown_client, shown_server};
use super::same;
use lc_book::{ClientBook, ClientParts, ServerBook, ServerParts};
use lc_frame::Version;
use std::test::Fail;

const TWO_24: u32 = 16_777_216;

const TWO_62: u64 = 4_611_686_018_427_387_904;

// A client at each of its bounds.
const FULL_CLIENT: ClientParts = ClientParts {
    version: Version::One,
    received: TWO_62,
    spent: TWO_62 - 16_777_217,
    absolved: 1,
    waived: 0,
    send_left: Some(TWO_62),
    receive_left: Some(TWO_62),
    asked: Some(TWO_24),
    finished: false,
};

// One that finished.
const FINISHED_CLIENT: ClientParts = ClientParts {
    version: Version::Two,
    received: 12,
    spent: 4,
    absolved: 3,
    waived: 5,
    send_left: None,
    receive_left: None,
    asked: None,
    finished: true,
};

// A server at each of its bounds.
const FULL_SERVER: ServerParts = ServerParts {
    capacity: TWO_24,
    issued: TWO_62,
    arrived: TWO_62 - 16_777_216,
    taken: TWO_62 - 16_777_217,
    absolved: 1,
    waived: 0,
    send_left: Some(TWO_62),
    receive_left: Some(TWO_62),
    finished: false,
};

// One whose client finished.
const FINISHED_SERVER: ServerParts = ServerParts {
    capacity: 8,
    issued: 12,
    arrived: 4,
    taken: 1,
    absolved: 3,
    waived: 5,
    send_left: None,
    receive_left: None,
    finished: true,
};

// What breaks a rule of a client, and nothing else.
const BROKEN_CLIENTS: [(&str, ClientParts); 14] = [
    (
        "above 2^62 received",
        ClientParts {
            received: TWO_62 + 1,
            spent: TWO_62 - 16_777_216,
            ..FULL_CLIENT
        },
    ),
    (
        "more spent than received",
        ClientParts {
            received: 4,
            spent: 5,
            absolved: 0,
            ..FULL_CLIENT
        },
    ),
    (
        "more absolved than received",
        ClientParts {
            received: 4,
            spent: 0,
            absolved: 5,
            ..FULL_CLIENT
        },
    ),
    (
        "more used than received",
        ClientParts {
            received: 4,
            spent: 3,
            absolved: 2,
            ..FULL_CLIENT
        },
    ),
    (
        "a sum that wraps",
        ClientParts {
            received: 4,
            spent: u64::MAX,
            absolved: 1,
            ..FULL_CLIENT
        },
    ),
    (
        "above 2^24 held",
        ClientParts {
            absolved: 0,
            ..FULL_CLIENT
        },
    ),
    (
        "a limit on sending above 2^62",
        ClientParts {
            send_left: Some(TWO_62 + 1),
            ..FULL_CLIENT
        },
    ),
    (
        "a limit on receiving above 2^62",
        ClientParts {
            receive_left: Some(TWO_62 + 1),
            ..FULL_CLIENT
        },
    ),
    (
        "a target above 2^24",
        ClientParts {
            asked: Some(TWO_24 + 1),
            ..FULL_CLIENT
        },
    ),
    (
        "waived before a Finish",
        ClientParts {
            waived: 1,
            ..FULL_CLIENT
        },
    ),
    (
        "held behind a Finish",
        ClientParts {
            waived: 4,
            ..FINISHED_CLIENT
        },
    ),
    (
        "more waived than received",
        ClientParts {
            waived: 6,
            ..FINISHED_CLIENT
        },
    ),
    (
        "a plead kept behind a Finish",
        ClientParts {
            asked: Some(0),
            ..FINISHED_CLIENT
        },
    ),
    (
        "finished in version One",
        ClientParts {
            version: Version::One,
            ..FINISHED_CLIENT
        },
    ),
];

// What breaks a rule of a server, and nothing else.
const BROKEN_SERVERS: [(&str, ServerParts); 15] = [
    (
        "no capacity",
        ServerParts {
            capacity: 0,
            issued: 0,
            arrived: 0,
            taken: 0,
            absolved: 0,
            ..FULL_SERVER
        },
    ),
    (
        "a capacity above 2^24",
        ServerParts {
            capacity: TWO_24 + 1,
            ..FULL_SERVER
        },
    ),
    (
        "above 2^62 issued",
        ServerParts {
            issued: TWO_62 + 1,
            absolved: 2,
            ..FULL_SERVER
        },
    ),
    (
        "more arrived than issued",
        ServerParts {
            issued: 4,
            arrived: 5,
            taken: 5,
            absolved: 0,
            ..FULL_SERVER
        },
    ),
    (
        "more absolved than issued",
        ServerParts {
            issued: 4,
            arrived: 0,
            taken: 0,
            absolved: 5,
            ..FULL_SERVER
        },
    ),
    (
        "more used than issued",
        ServerParts {
            issued: 4,
            arrived: 3,
            taken: 3,
            absolved: 2,
            ..FULL_SERVER
        },
    ),
    (
        "a sum that wraps",
        ServerParts {
            issued: 4,
            arrived: u64::MAX,
            taken: u64::MAX,
            absolved: 1,
            ..FULL_SERVER
        },
    ),
    (
        "more taken than arrived",
        ServerParts {
            issued: 4,
            arrived: 4,
            taken: 5,
            absolved: 0,
            ..FULL_SERVER
        },
    ),
    (
        "more promised than there is room for",
        ServerParts {
            absolved: 0,
            ..FULL_SERVER
        },
    ),
    (
        "more buffered than there is room for",
        ServerParts {
            taken: TWO_62 - 16_777_218,
            ..FULL_SERVER
        },
    ),
    (
        "a limit on sending above 2^62",
        ServerParts {
            send_left: Some(TWO_62 + 1),
            ..FULL_SERVER
        },
    ),
    (
        "a limit on receiving above 2^62",
        ServerParts {
            receive_left: Some(TWO_62 + 1),
            ..FULL_SERVER
        },
    ),
    (
        "waived before a Finish",
        ServerParts {
            waived: 1,
            ..FULL_SERVER
        },
    ),
    (
        "outstanding behind a Finish",
        ServerParts {
            waived: 4,
            ..FINISHED_SERVER
        },
    ),
    (
        "more waived than issued",
        ServerParts {
            waived: 6,
            ..FINISHED_SERVER
        },
    ),
];

#[test]
fn books_at_their_bounds_are_books(rt: HostRuntime) -> Result<(), Fail> {
    let client = ClientBook::restore(FULL_CLIENT).ok_or("a client at its bounds")?;
    let wanted =
        "held 16777216 received 4611686018427387904 spent 4611686018410610687 absolved 1 send_left Some(4611686018427387904) receive_left Some(4611686018427387904) asked Some(16777216)";
    same(&rt, "a client", shown_client(rt.alloc(), &client), wanted);
    let server = ServerBook::restore(FULL_SERVER).ok_or("a server at its bounds")?;
    let wanted =
        "outstanding 16777215 buffered 1 room 0 issued 4611686018427387904 of 16777216 send_left Some(4611686018427387904) receive_left Some(4611686018427387904) ended false";
    same(&rt, "a server", shown_server(rt.alloc(), &server), wanted);
    Ok(())
}

#[test]
fn finished_books_are_books(rt: HostRuntime) -> Result<(), Fail> {
    let client = ClientBook::restore(FINISHED_CLIENT).ok_or("a client that finished")?;
    let wanted =
        "held 0 received 12 spent 4 absolved 3 send_left None receive_left None asked None";
    same(&rt, "a client", shown_client(rt.alloc(), &client), wanted);
    let server = ServerBook::restore(FINISHED_SERVER).ok_or("a server of one that finished")?;
    let wanted =
        "outstanding 0 buffered 3 room 5 issued 12 of 8 send_left None receive_left None ended true";
    same(&rt, "a server", shown_server(rt.alloc(), &server), wanted);
    Ok(())
}

#[test]
fn broken_clients_are_none(rt: HostRuntime) {
    for (broken, parts) in &BROKEN_CLIENTS {
        assert!(rt; ClientBook::restore(*parts).is_none(), "{broken}");
    }
}

#[test]
fn broken_servers_are_none(rt: HostRuntime) {
    for (broken, parts) in &BROKEN_SERVERS {
        assert!(rt; ServerBook::restore(*parts).is_none(), "{broken}");
    }
}
