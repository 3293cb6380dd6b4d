//! What a client reads that asks a path which takes POST alone.

use super::client::Text;
use super::serving::Row;

const ACTED: &[&[u8]] = &[b"HTTP/1.1 200 OK\r\n", b"\r\n\r\n{\"acted\":0}"];

const FORBIDDEN: &[&[u8]] = &[
    b"HTTP/1.1 403 Forbidden\r\n",
    b"content-type: application/json\r\n",
    b"\r\n\r\n{\"acted\":0}",
];

const POST_ONLY: &[&[u8]] = &[
    b"HTTP/1.1 405 Method Not Allowed\r\n",
    b"allow: POST\r\n",
    b"content-type: application/json\r\n",
    b"\r\n\r\n{\"error\":\"post only\"}",
];

/// What comes for POST at another path.
const OTHERS_ONLY: &[&[u8]] = &[
    b"HTTP/1.1 405 Method Not Allowed\r\n",
    b"allow: GET, HEAD\r\n",
    b"\r\n\r\n{\"error\":\"method not allowed\"}",
];

/// Requests at a path that takes POST alone. The client is on loopback.
pub(crate) const ACTS: &[Row] = &[
    Row {
        sent: Text::Whole(
            b"POST /act HTTP/1.1\r\nHost: a\r\nX-Mark: here\r\nConnection: close\r\n\r\n",
        ),
        parts: ACTED,
    },
    // The name of a field has no case, and its value does. A query isn't a part of the path.
    Row {
        sent: Text::Whole(
            b"POST /act?a HTTP/1.1\r\nHost: a\r\nx-mARK: here\r\nConnection: close\r\n\r\n",
        ),
        parts: ACTED,
    },
    Row {
        sent: Text::Whole(
            b"POST /act HTTP/1.1\r\nHost: a\r\nX-Mark: Here\r\nConnection: close\r\n\r\n",
        ),
        parts: FORBIDDEN,
    },
    Row {
        sent: Text::Whole(b"POST /act HTTP/1.1\r\nHost: a\r\nConnection: close\r\n\r\n"),
        parts: FORBIDDEN,
    },
    // The first of two values counts.
    Row {
        sent: Text::Whole(
            b"POST /act HTTP/1.1\r\nHost: a\r\nX-Mark: b\r\nX-Mark: here\r\nConnection: close\r\n\r\n",
        ),
        parts: FORBIDDEN,
    },
    // A short body is read and means nothing, and the connection is closed behind the answer.
    Row {
        sent: Text::Whole(
            b"POST /act HTTP/1.1\r\nHost: a\r\nX-Mark: here\r\nContent-Length: 3\r\n\r\nabc",
        ),
        parts: &[
            b"HTTP/1.1 200 OK\r\n",
            b"connection: close\r\n",
            b"\r\n\r\n{\"acted\":0}",
        ],
    },
    Row {
        sent: Text::Whole(
            b"POST /act HTTP/1.1\r\nHost: a\r\nX-Mark: here\r\nContent-Length: 0\r\n\r\n",
        ),
        parts: &[
            b"HTTP/1.1 200 OK\r\n",
            b"connection: close\r\n",
            b"\r\n\r\n{\"acted\":0}",
        ],
    },
    // Other methods, whose case counts.
    Row {
        sent: Text::Whole(
            b"GET /act HTTP/1.1\r\nHost: a\r\nX-Mark: here\r\nConnection: close\r\n\r\n",
        ),
        parts: POST_ONLY,
    },
    Row {
        sent: Text::Whole(b"HEAD /act HTTP/1.1\r\nHost: a\r\nConnection: close\r\n\r\n"),
        parts: &[
            b"HTTP/1.1 405 Method Not Allowed\r\n",
            b"allow: POST\r\n",
            b"\r\n\r\n",
        ],
    },
    Row {
        sent: Text::Whole(
            b"PUT /act HTTP/1.1\r\nHost: a\r\nX-Mark: here\r\nConnection: close\r\n\r\n",
        ),
        parts: POST_ONLY,
    },
    Row {
        sent: Text::Whole(
            b"post /act HTTP/1.1\r\nHost: a\r\nX-Mark: here\r\nConnection: close\r\n\r\n",
        ),
        parts: POST_ONLY,
    },
    // POST at another path.
    Row {
        sent: Text::Whole(
            b"POST /actor HTTP/1.1\r\nHost: a\r\nX-Mark: here\r\nConnection: close\r\n\r\n",
        ),
        parts: OTHERS_ONLY,
    },
];
