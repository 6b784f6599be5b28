//! Answers of the proxy's own, and exchanges that are cut off.

use super::Case;

/// The server ends in the middle of an answer.
pub const CUT: Case = Case {
    script: br#"hx-script 1
config 4
listen web
  bind :8080
  http-reuse always
  server s1 127.0.0.1:9001
client web 0 0
piece 0 0 "GET /a HTTP/1.1\r\nHost: h\r\n\r\n"
end 0 40
server web/s1
piece 0 28 "HTTP/1.1 200 OK\r\nContent-Length: 10\r\n\r\nhi"
end 0 28
"#,
    transcript: br#"hx-transcript 1
server web/s1 always -1 0 5000
open 0.1 1
close 0.1 1
gate 0 drain
records
cut 0.1 1 web/s1#1 1 ask 0-28 sent 0-28 took 0-41 gave 0-41 close-no ended
left 0.1 28-28 cut
links
client 0.1 took "GET /a HTTP/1.1\r\nHost: h\r\n\r\n"
client 0.1 gave "HTTP/1.1 200 OK\r\nContent-Length: 10\r\n\r\nhi"
conn web/s1#1 sent "GET /a HTTP/1.1\r\nHost: h\r\n\r\n"
conn web/s1#1 took "HTTP/1.1 200 OK\r\nContent-Length: 10\r\n\r\nhi"
totals
web/s1 open 1 park 0 take 0 over 0 care 0 close 1
end
"#,
};

/// The server ends without an answer.
pub const NO_ANSWER: Case = Case {
    script: br#"hx-script 1
config 4
listen web
  bind :8080
  http-reuse always
  server s1 127.0.0.1:9001
client web 0 0
piece 0 0 "GET /a HTTP/1.1\r\nHost: h\r\n\r\n"
end 0 40
server web/s1
end 0 28
"#,
    transcript: br#"hx-transcript 1
server web/s1 always -1 0 5000
open 0.1 1
close 0.1 1
gate 0 drain
records
own 0.1 1 502 ask 0-28 gave 0-66
left 0.1 28-28 own
links
client 0.1 took "GET /a HTTP/1.1\r\nHost: h\r\n\r\n"
client 0.1 gave "HTTP/1.1 502 Bad Gateway\r\nContent-Length: 0\r\nConnection: close\r\n\r\n"
conn web/s1#1 sent "GET /a HTTP/1.1\r\nHost: h\r\n\r\n"
conn web/s1#1 took ""
totals
web/s1 open 1 park 0 take 0 over 0 care 0 close 1
end
"#,
};

/// The server ends before the second answer.
pub const SECOND_CUT: Case = Case {
    script: br#"hx-script 1
config 4
listen web
  bind :8080
  http-reuse always
  server s1 127.0.0.1:9001
client web 0 0
piece 0 0 "GET /a HTTP/1.1\r\nHost: h\r\n\r\nGET /a HTTP/1.1\r\nHost: h\r\n\r\n"
end 0 80
server web/s1
piece 0 28 "HTTP/1.1 200 OK\r\nContent-Length: 2\r\n\r\nhi"
end 0 56
"#,
    transcript: br#"hx-transcript 1
server web/s1 always -1 0 5000
open 0.1 1
park 0.1 1 0:0 1
take 0.1 1 0:0 1 later
close 0.1 1
gate 0 drain
records
pass 0.1 1 web/s1#1 1 ask 0-28 sent 0-28 took 0-40 gave 0-40 keep
cut 0.1 2 web/s1#1 2 ask 28-56 sent 28-56 took 40-40 gave 40-40 close-no silent
left 0.1 56-56 cut
links
client 0.1 took "GET /a HTTP/1.1\r\nHost: h\r\n\r\nGET /a HTTP/1.1\r\nHost: h\r\n\r\n"
client 0.1 gave "HTTP/1.1 200 OK\r\nContent-Length: 2\r\n\r\nhi"
conn web/s1#1 sent "GET /a HTTP/1.1\r\nHost: h\r\n\r\nGET /a HTTP/1.1\r\nHost: h\r\n\r\n"
conn web/s1#1 took "HTTP/1.1 200 OK\r\nContent-Length: 2\r\n\r\nhi"
totals
web/s1 open 1 park 1 take 1 over 0 care 0 close 1
end
"#,
};

/// A request with two framings.
pub const BOTH_LENGTHS: Case = Case {
    script: br#"hx-script 1
config 4
listen web
  bind :8080
  http-reuse always
  server s1 127.0.0.1:9001
client web 0 0
piece 0 0 "POST /a HTTP/1.1\r\nHost: h\r\nContent-Length: 2\r\nTransfer-Encoding: chunked\r\n\r\n"
end 0 40
server web/s1
piece 0 28 "HTTP/1.1 200 OK\r\nContent-Length: 2\r\n\r\nhi"
"#,
    transcript: br#"hx-transcript 1
server web/s1 always -1 0 5000
gate 0 drain
records
own 0.1 1 400 ask 0-76 gave 0-66
left 0.1 76-76 own
links
client 0.1 took "POST /a HTTP/1.1\r\nHost: h\r\nContent-Length: 2\r\nTransfer-Encoding: chunked\r\n\r\n"
client 0.1 gave "HTTP/1.1 400 Bad Request\r\nContent-Length: 0\r\nConnection: close\r\n\r\n"
totals
web/s1 open 0 park 0 take 0 over 0 care 0 close 0
end
"#,
};

/// A request of an older version.
pub const VERSION: Case = Case {
    script: br#"hx-script 1
config 4
listen web
  bind :8080
  http-reuse always
  server s1 127.0.0.1:9001
client web 0 0
piece 0 0 "GET / HTTP/1.0\r\n\r\n"
end 0 40
server web/s1
piece 0 28 "HTTP/1.1 200 OK\r\nContent-Length: 2\r\n\r\nhi"
"#,
    transcript: br#"hx-transcript 1
server web/s1 always -1 0 5000
gate 0 drain
records
own 0.1 1 505 ask 0-18 gave 0-81
left 0.1 18-18 own
links
client 0.1 took "GET / HTTP/1.0\r\n\r\n"
client 0.1 gave "HTTP/1.1 505 HTTP Version Not Supported\r\nContent-Length: 0\r\nConnection: close\r\n\r\n"
totals
web/s1 open 0 park 0 take 0 over 0 care 0 close 0
end
"#,
};

/// The client's timeout comes in the middle of a head.
pub const CLIENT_LATE: Case = Case {
    script: br#"hx-script 1
config 5
listen web
  bind :8080
  http-reuse always
  timeout client 100
  server s1 127.0.0.1:9001 
client web 0 0
piece 0 0 "GET"
server web/s1
piece 0 28 "HTTP/1.1 200 OK\r\nContent-Length: 2\r\n\r\nhi"
tick 100
"#,
    transcript: br#"hx-transcript 1
server web/s1 always -1 0 5000
gate 0 drain
records
own 0.1 1 408 ask 0-3 gave 0-70
left 0.1 3-3 own
links
client 0.1 took "GET"
client 0.1 gave "HTTP/1.1 408 Request Timeout\r\nContent-Length: 0\r\nConnection: close\r\n\r\n"
totals
web/s1 open 0 park 0 take 0 over 0 care 0 close 0
end
"#,
};

/// The server's timeout comes before an answer.
pub const SERVER_LATE: Case = Case {
    script: br#"hx-script 1
config 5
listen web
  bind :8080
  http-reuse always
  timeout server 50
  server s1 127.0.0.1:9001 
client web 0 0
piece 0 0 "GET /a HTTP/1.1\r\nHost: h\r\n\r\n"
end 0 40
server web/s1
tick 50
"#,
    transcript: br#"hx-transcript 1
server web/s1 always -1 0 5000
open 0.1 1
close 0.1 1
gate 0 drain
records
own 0.1 1 504 ask 0-28 gave 0-70
left 0.1 28-28 own
links
client 0.1 took "GET /a HTTP/1.1\r\nHost: h\r\n\r\n"
client 0.1 gave "HTTP/1.1 504 Gateway Timeout\r\nContent-Length: 0\r\nConnection: close\r\n\r\n"
conn web/s1#1 sent "GET /a HTTP/1.1\r\nHost: h\r\n\r\n"
conn web/s1#1 took ""
totals
web/s1 open 1 park 0 take 0 over 0 care 0 close 1
end
"#,
};

/// No connection is to be had.
pub const NO_CONNECTION: Case = Case {
    script: br#"hx-script 1
config 4
listen web
  bind :8080
  http-reuse always
  server s1 127.0.0.1:9001
client web 0 0
piece 0 0 "GET /a HTTP/1.1\r\nHost: h\r\n\r\n"
end 0 40
"#,
    transcript: br#"hx-transcript 1
server web/s1 always -1 0 5000
open 0.1 1
close 0.1 1
gate 0 drain
records
own 0.1 1 503 ask 0-28 gave 0-74
left 0.1 28-28 own
links
client 0.1 took "GET /a HTTP/1.1\r\nHost: h\r\n\r\n"
client 0.1 gave "HTTP/1.1 503 Service Unavailable\r\nContent-Length: 0\r\nConnection: close\r\n\r\n"
totals
web/s1 open 1 park 0 take 0 over 0 care 0 close 1
end
"#,
};
