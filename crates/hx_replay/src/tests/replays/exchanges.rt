//! Exchanges that pass, one after the other.

use super::Case;

/// Two requests at once.
pub const PIPELINED: Case = Case {
    script: br#"hx-script 1
config 4
listen web
  bind :8080
  http-reuse always
  server s1 127.0.0.1:9001
client web 0 0
piece 0 0 "GET /a HTTP/1.1\r\nHost: h\r\n\r\nGET /a HTTP/1.1\r\nHost: h\r\n\r\n"
end 0 80
server web/s1
piece 0 28 "HTTP/1.1 200 OK\r\nContent-Length: 2\r\n\r\nhi"
piece 0 56 "HTTP/1.1 200 OK\r\nContent-Length: 2\r\n\r\nhi"
"#,
    transcript: br#"hx-transcript 1
server web/s1 always -1 0 5000
open 0.1 1
park 0.1 1 0:0 1
take 0.1 1 0:0 1 later
park 0.1 1 0:0 2
gate 0 drain
take 0.0 1 0:0 2 later
close 0.0 1
records
pass 0.1 1 web/s1#1 1 ask 0-28 sent 0-28 took 0-40 gave 0-40 keep
pass 0.1 2 web/s1#1 2 ask 28-56 sent 28-56 took 40-80 gave 40-80 keep
left 0.1 56-56 end
links
client 0.1 took "GET /a HTTP/1.1\r\nHost: h\r\n\r\nGET /a HTTP/1.1\r\nHost: h\r\n\r\n"
client 0.1 gave "HTTP/1.1 200 OK\r\nContent-Length: 2\r\n\r\nhiHTTP/1.1 200 OK\r\nContent-Length: 2\r\n\r\nhi"
conn web/s1#1 sent "GET /a HTTP/1.1\r\nHost: h\r\n\r\nGET /a HTTP/1.1\r\nHost: h\r\n\r\n"
conn web/s1#1 took "HTTP/1.1 200 OK\r\nContent-Length: 2\r\n\r\nhiHTTP/1.1 200 OK\r\nContent-Length: 2\r\n\r\nhi"
totals
web/s1 open 1 park 2 take 1 over 0 care 1 close 1
end
"#,
};

/// An answer in chunks with a trailer, cut in its middle.
pub const CHUNKS: Case = Case {
    script: br#"hx-script 1
config 4
listen web
  bind :8080
  http-reuse always
  server s1 127.0.0.1:9001
client web 0 0
piece 0 0 "GET /a HTTP/1.1\r\nHost: h\r\n\r\n"
end 0 66
server web/s1
piece 0 28 "HTTP/1.1 200 OK\r\nTransfer-Encoding: chunked\r\n\r\n3"
piece 0 28 "\r\nabc\r\n0\r\nX:"
piece 0 28 " y\r\n\r\n"
"#,
    transcript: br#"hx-transcript 1
server web/s1 always -1 0 5000
open 0.1 1
park 0.1 1 0:0 1
gate 0 drain
take 0.0 1 0:0 1 later
close 0.0 1
records
pass 0.1 1 web/s1#1 1 ask 0-28 sent 0-28 took 0-66 gave 0-66 keep
left 0.1 28-28 end
links
client 0.1 took "GET /a HTTP/1.1\r\nHost: h\r\n\r\n"
client 0.1 gave "HTTP/1.1 200 OK\r\nTransfer-Encoding: chunked\r\n\r\n3\r\nabc\r\n0\r\nX: y\r\n\r\n"
conn web/s1#1 sent "GET /a HTTP/1.1\r\nHost: h\r\n\r\n"
conn web/s1#1 took "HTTP/1.1 200 OK\r\nTransfer-Encoding: chunked\r\n\r\n3\r\nabc\r\n0\r\nX: y\r\n\r\n"
totals
web/s1 open 1 park 1 take 0 over 0 care 1 close 1
end
"#,
};

/// An answer to HEAD tells a length and has no body.
pub const HEAD: Case = Case {
    script: br#"hx-script 1
config 4
listen web
  bind :8080
  http-reuse always
  server s1 127.0.0.1:9001
client web 0 0
piece 0 0 "HEAD /a HTTP/1.1\r\nHost: h\r\n\r\n"
end 0 39
server web/s1
piece 0 29 "HTTP/1.1 200 OK\r\nContent-Length: 10\r\n\r\n"
"#,
    transcript: br#"hx-transcript 1
server web/s1 always -1 0 5000
open 0.1 1
park 0.1 1 0:0 1
gate 0 drain
take 0.0 1 0:0 1 later
close 0.0 1
records
pass 0.1 1 web/s1#1 1 ask 0-29 sent 0-29 took 0-39 gave 0-39 keep
left 0.1 29-29 end
links
client 0.1 took "HEAD /a HTTP/1.1\r\nHost: h\r\n\r\n"
client 0.1 gave "HTTP/1.1 200 OK\r\nContent-Length: 10\r\n\r\n"
conn web/s1#1 sent "HEAD /a HTTP/1.1\r\nHost: h\r\n\r\n"
conn web/s1#1 took "HTTP/1.1 200 OK\r\nContent-Length: 10\r\n\r\n"
totals
web/s1 open 1 park 1 take 0 over 0 care 1 close 1
end
"#,
};

/// Fields of the connection are left out.
pub const FIELDS: Case = Case {
    script: br#"hx-script 1
config 4
listen web
  bind :8080
  http-reuse always
  server s1 127.0.0.1:9001
client web 0 0
piece 0 0 "GET /a HTTP/1.1\r\nHost: h\r\nConnection: close, X-Q\r\nX-Q: 1\r\n\r\n"
server web/s1
piece 0 28 "HTTP/1.1 200 OK\r\nContent-Length: 2\r\n\r\nhi"
"#,
    transcript: br#"hx-transcript 1
server web/s1 always -1 0 5000
open 0.1 1
park 0.1 1 0:0 1
gate 0 drain
take 0.0 1 0:0 1 later
close 0.0 1
records
pass 0.1 1 web/s1#1 1 ask 0-60 sent 0-28 took 0-40 gave 0-59 close
left 0.1 60-60 closing
links
client 0.1 took "GET /a HTTP/1.1\r\nHost: h\r\nConnection: close, X-Q\r\nX-Q: 1\r\n\r\n"
client 0.1 gave "HTTP/1.1 200 OK\r\nContent-Length: 2\r\nConnection: close\r\n\r\nhi"
conn web/s1#1 sent "GET /a HTTP/1.1\r\nHost: h\r\n\r\n"
conn web/s1#1 took "HTTP/1.1 200 OK\r\nContent-Length: 2\r\n\r\nhi"
totals
web/s1 open 1 park 1 take 0 over 0 care 1 close 1
end
"#,
};

/// Two servers in turn.
pub const IN_TURN: Case = Case {
    script: br#"hx-script 1
config 5
listen web
  bind :8080
  http-reuse always
  server s1 127.0.0.1:9001
  server s2 127.0.0.1:9002
client web 0 0
piece 0 0 "GET /a HTTP/1.1\r\nHost: h\r\n\r\nGET /a HTTP/1.1\r\nHost: h\r\n\r\n"
end 0 80
server web/s1
piece 0 28 "HTTP/1.1 200 OK\r\nContent-Length: 2\r\n\r\nhi"
server web/s2
piece 0 28 "HTTP/1.1 200 OK\r\nContent-Length: 2\r\n\r\nhi"
"#,
    transcript: br#"hx-transcript 1
server web/s1 always -1 0 5000
open 0.1 1
park 0.1 1 0:0 1
gate 0 drain
take 0.0 1 0:0 1 later
close 0.0 1
server web/s2 always -1 0 5000
open 0.1 1
park 0.1 1 0:0 1
gate 0 drain
take 0.0 1 0:0 1 later
close 0.0 1
records
pass 0.1 1 web/s1#1 1 ask 0-28 sent 0-28 took 0-40 gave 0-40 keep
pass 0.1 2 web/s2#1 1 ask 28-56 sent 0-28 took 0-40 gave 40-80 keep
left 0.1 56-56 end
links
client 0.1 took "GET /a HTTP/1.1\r\nHost: h\r\n\r\nGET /a HTTP/1.1\r\nHost: h\r\n\r\n"
client 0.1 gave "HTTP/1.1 200 OK\r\nContent-Length: 2\r\n\r\nhiHTTP/1.1 200 OK\r\nContent-Length: 2\r\n\r\nhi"
conn web/s1#1 sent "GET /a HTTP/1.1\r\nHost: h\r\n\r\n"
conn web/s1#1 took "HTTP/1.1 200 OK\r\nContent-Length: 2\r\n\r\nhi"
conn web/s2#1 sent "GET /a HTTP/1.1\r\nHost: h\r\n\r\n"
conn web/s2#1 took "HTTP/1.1 200 OK\r\nContent-Length: 2\r\n\r\nhi"
totals
web/s1 open 1 park 1 take 0 over 0 care 1 close 1
web/s2 open 1 park 1 take 0 over 0 care 1 close 1
end
"#,
};

/// The server whose turn it is drains.
pub const ONE_DRAINS: Case = Case {
    script: br#"hx-script 1
config 5
listen web
  bind :8080
  http-reuse always
  server s1 127.0.0.1:9001
  server s2 127.0.0.1:9002
client web 0 0
piece 0 0 "GET /a HTTP/1.1\r\nHost: h\r\n\r\nGET /a HTTP/1.1\r\nHost: h\r\n\r\n"
end 0 80
server web/s1
piece 0 28 "HTTP/1.1 200 OK\r\nContent-Length: 2\r\n\r\nhi"
server web/s2
piece 0 28 "HTTP/1.1 200 OK\r\nContent-Length: 2\r\n\r\nhi"
piece 0 56 "HTTP/1.1 200 OK\r\nContent-Length: 2\r\n\r\nhi"
drain 0 web/s1
"#,
    transcript: br#"hx-transcript 1
server web/s1 always -1 0 5000
gate 0 drain
gate 0 drain
server web/s2 always -1 0 5000
open 0.1 1
park 0.1 1 0:0 1
take 0.1 1 0:0 1 later
park 0.1 1 0:0 2
gate 0 drain
take 0.0 1 0:0 2 later
close 0.0 1
records
pass 0.1 1 web/s2#1 1 ask 0-28 sent 0-28 took 0-40 gave 0-40 keep
pass 0.1 2 web/s2#1 2 ask 28-56 sent 28-56 took 40-80 gave 40-80 keep
left 0.1 56-56 end
links
client 0.1 took "GET /a HTTP/1.1\r\nHost: h\r\n\r\nGET /a HTTP/1.1\r\nHost: h\r\n\r\n"
client 0.1 gave "HTTP/1.1 200 OK\r\nContent-Length: 2\r\n\r\nhiHTTP/1.1 200 OK\r\nContent-Length: 2\r\n\r\nhi"
conn web/s2#1 sent "GET /a HTTP/1.1\r\nHost: h\r\n\r\nGET /a HTTP/1.1\r\nHost: h\r\n\r\n"
conn web/s2#1 took "HTTP/1.1 200 OK\r\nContent-Length: 2\r\n\r\nhiHTTP/1.1 200 OK\r\nContent-Length: 2\r\n\r\nhi"
totals
web/s1 open 0 park 0 take 0 over 0 care 0 close 0
web/s2 open 1 park 2 take 1 over 0 care 1 close 1
end
"#,
};
