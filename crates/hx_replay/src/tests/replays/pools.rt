//! Connections that rest, and those that don't.

use super::Case;

/// No first request shares under safe.
pub const SAFE: Case = Case {
    script: br#"hx-script 1
config 4
listen web
  bind :8080
  http-reuse safe
  server s1 127.0.0.1:9001 
client web 0 0
piece 0 0 "GET /a HTTP/1.1\r\nHost: h\r\n\r\n"
end 0 40
client web 0 10
piece 10 0 "GET /a HTTP/1.1\r\nHost: h\r\n\r\n"
end 10 40
server web/s1
piece 0 28 "HTTP/1.1 200 OK\r\nContent-Length: 2\r\n\r\nhi"
piece 0 56 "HTTP/1.1 200 OK\r\nContent-Length: 2\r\n\r\nhi"
server web/s1
piece 0 28 "HTTP/1.1 200 OK\r\nContent-Length: 2\r\n\r\nhi"
piece 0 56 "HTTP/1.1 200 OK\r\nContent-Length: 2\r\n\r\nhi"
"#,
    transcript: br#"hx-transcript 1
server web/s1 safe -1 0 5000
open 0.1 1
park 0.1 1 0:0 1
open 0.2 2
park 0.2 2 0:1 1
gate 0 drain
take 0.0 1 0:0 1 later
close 0.0 1
take 0.0 2 0:1 1 later
close 0.0 2
records
pass 0.1 1 web/s1#1 1 ask 0-28 sent 0-28 took 0-40 gave 0-40 keep
left 0.1 28-28 end
pass 0.2 1 web/s1#2 1 ask 0-28 sent 0-28 took 0-40 gave 0-40 keep
left 0.2 28-28 end
links
client 0.1 took "GET /a HTTP/1.1\r\nHost: h\r\n\r\n"
client 0.1 gave "HTTP/1.1 200 OK\r\nContent-Length: 2\r\n\r\nhi"
client 0.2 took "GET /a HTTP/1.1\r\nHost: h\r\n\r\n"
client 0.2 gave "HTTP/1.1 200 OK\r\nContent-Length: 2\r\n\r\nhi"
conn web/s1#1 sent "GET /a HTTP/1.1\r\nHost: h\r\n\r\n"
conn web/s1#1 took "HTTP/1.1 200 OK\r\nContent-Length: 2\r\n\r\nhi"
conn web/s1#2 sent "GET /a HTTP/1.1\r\nHost: h\r\n\r\n"
conn web/s1#2 took "HTTP/1.1 200 OK\r\nContent-Length: 2\r\n\r\nhi"
totals
web/s1 open 2 park 2 take 0 over 0 care 2 close 2
end
"#,
};

/// A first request takes what served two.
pub const AGGRESSIVE: Case = Case {
    script: br#"hx-script 1
config 4
listen web
  bind :8080
  http-reuse aggressive
  server s1 127.0.0.1:9001 
client web 0 0
piece 0 0 "GET /a HTTP/1.1\r\nHost: h\r\n\r\n"
end 0 40
client web 0 10
piece 10 0 "GET /a HTTP/1.1\r\nHost: h\r\n\r\nGET /a HTTP/1.1\r\nHost: h\r\n\r\n"
end 10 80
client web 0 20
piece 20 0 "GET /a HTTP/1.1\r\nHost: h\r\n\r\n"
end 20 40
server web/s1
piece 0 28 "HTTP/1.1 200 OK\r\nContent-Length: 2\r\n\r\nhi"
piece 0 56 "HTTP/1.1 200 OK\r\nContent-Length: 2\r\n\r\nhi"
piece 0 84 "HTTP/1.1 200 OK\r\nContent-Length: 2\r\n\r\nhi"
piece 0 112 "HTTP/1.1 200 OK\r\nContent-Length: 2\r\n\r\nhi"
piece 0 140 "HTTP/1.1 200 OK\r\nContent-Length: 2\r\n\r\nhi"
piece 0 168 "HTTP/1.1 200 OK\r\nContent-Length: 2\r\n\r\nhi"
piece 0 196 "HTTP/1.1 200 OK\r\nContent-Length: 2\r\n\r\nhi"
piece 0 224 "HTTP/1.1 200 OK\r\nContent-Length: 2\r\n\r\nhi"
piece 0 252 "HTTP/1.1 200 OK\r\nContent-Length: 2\r\n\r\nhi"
server web/s1
piece 0 28 "HTTP/1.1 200 OK\r\nContent-Length: 2\r\n\r\nhi"
piece 0 56 "HTTP/1.1 200 OK\r\nContent-Length: 2\r\n\r\nhi"
piece 0 84 "HTTP/1.1 200 OK\r\nContent-Length: 2\r\n\r\nhi"
piece 0 112 "HTTP/1.1 200 OK\r\nContent-Length: 2\r\n\r\nhi"
piece 0 140 "HTTP/1.1 200 OK\r\nContent-Length: 2\r\n\r\nhi"
piece 0 168 "HTTP/1.1 200 OK\r\nContent-Length: 2\r\n\r\nhi"
piece 0 196 "HTTP/1.1 200 OK\r\nContent-Length: 2\r\n\r\nhi"
piece 0 224 "HTTP/1.1 200 OK\r\nContent-Length: 2\r\n\r\nhi"
piece 0 252 "HTTP/1.1 200 OK\r\nContent-Length: 2\r\n\r\nhi"
"#,
    transcript: br#"hx-transcript 1
server web/s1 aggressive -1 0 5000
open 0.1 1
park 0.1 1 0:0 1
open 0.2 2
park 0.2 2 0:1 1
take 0.2 2 0:1 1 later
park 0.2 2 0:1 2
take 0.3 2 0:1 2 first
park 0.3 2 0:1 3
gate 0 drain
take 0.0 1 0:0 1 later
close 0.0 1
take 0.0 2 0:1 3 later
close 0.0 2
records
pass 0.1 1 web/s1#1 1 ask 0-28 sent 0-28 took 0-40 gave 0-40 keep
left 0.1 28-28 end
pass 0.2 1 web/s1#2 1 ask 0-28 sent 0-28 took 0-40 gave 0-40 keep
pass 0.2 2 web/s1#2 2 ask 28-56 sent 28-56 took 40-80 gave 40-80 keep
left 0.2 56-56 end
pass 0.3 1 web/s1#2 3 ask 0-28 sent 56-84 took 80-120 gave 0-40 keep
left 0.3 28-28 end
links
client 0.1 took "GET /a HTTP/1.1\r\nHost: h\r\n\r\n"
client 0.1 gave "HTTP/1.1 200 OK\r\nContent-Length: 2\r\n\r\nhi"
client 0.2 took "GET /a HTTP/1.1\r\nHost: h\r\n\r\nGET /a HTTP/1.1\r\nHost: h\r\n\r\n"
client 0.2 gave "HTTP/1.1 200 OK\r\nContent-Length: 2\r\n\r\nhiHTTP/1.1 200 OK\r\nContent-Length: 2\r\n\r\nhi"
client 0.3 took "GET /a HTTP/1.1\r\nHost: h\r\n\r\n"
client 0.3 gave "HTTP/1.1 200 OK\r\nContent-Length: 2\r\n\r\nhi"
conn web/s1#1 sent "GET /a HTTP/1.1\r\nHost: h\r\n\r\n"
conn web/s1#1 took "HTTP/1.1 200 OK\r\nContent-Length: 2\r\n\r\nhi"
conn web/s1#2 sent "GET /a HTTP/1.1\r\nHost: h\r\n\r\nGET /a HTTP/1.1\r\nHost: h\r\n\r\nGET /a HTTP/1.1\r\nHost: h\r\n\r\n"
conn web/s1#2 took "HTTP/1.1 200 OK\r\nContent-Length: 2\r\n\r\nhiHTTP/1.1 200 OK\r\nContent-Length: 2\r\n\r\nhiHTTP/1.1 200 OK\r\nContent-Length: 2\r\n\r\nhi"
totals
web/s1 open 2 park 4 take 2 over 0 care 2 close 2
end
"#,
};

/// Under never nothing rests.
pub const NEVER: Case = Case {
    script: br#"hx-script 1
config 4
listen web
  bind :8080
  http-reuse never
  server s1 127.0.0.1:9001 
client web 0 0
piece 0 0 "GET /a HTTP/1.1\r\nHost: h\r\n\r\n"
end 0 40
client web 0 10
piece 10 0 "GET /a HTTP/1.1\r\nHost: h\r\n\r\n"
end 10 40
server web/s1
piece 0 28 "HTTP/1.1 200 OK\r\nContent-Length: 2\r\n\r\nhi"
piece 0 56 "HTTP/1.1 200 OK\r\nContent-Length: 2\r\n\r\nhi"
server web/s1
piece 0 28 "HTTP/1.1 200 OK\r\nContent-Length: 2\r\n\r\nhi"
piece 0 56 "HTTP/1.1 200 OK\r\nContent-Length: 2\r\n\r\nhi"
"#,
    transcript: br#"hx-transcript 1
server web/s1 never -1 0 5000
open 0.1 1
close 0.1 1
open 0.2 2
close 0.2 2
gate 0 drain
records
pass 0.1 1 web/s1#1 1 ask 0-28 sent 0-28 took 0-40 gave 0-40 keep
left 0.1 28-28 end
pass 0.2 1 web/s1#2 1 ask 0-28 sent 0-28 took 0-40 gave 0-40 keep
left 0.2 28-28 end
links
client 0.1 took "GET /a HTTP/1.1\r\nHost: h\r\n\r\n"
client 0.1 gave "HTTP/1.1 200 OK\r\nContent-Length: 2\r\n\r\nhi"
client 0.2 took "GET /a HTTP/1.1\r\nHost: h\r\n\r\n"
client 0.2 gave "HTTP/1.1 200 OK\r\nContent-Length: 2\r\n\r\nhi"
conn web/s1#1 sent "GET /a HTTP/1.1\r\nHost: h\r\n\r\n"
conn web/s1#1 took "HTTP/1.1 200 OK\r\nContent-Length: 2\r\n\r\nhi"
conn web/s1#2 sent "GET /a HTTP/1.1\r\nHost: h\r\n\r\n"
conn web/s1#2 took "HTTP/1.1 200 OK\r\nContent-Length: 2\r\n\r\nhi"
totals
web/s1 open 2 park 0 take 0 over 0 care 0 close 2
end
"#,
};

/// None may rest.
pub const NONE_RESTS: Case = Case {
    script: br#"hx-script 1
config 4
listen web
  bind :8080
  http-reuse safe
  server s1 127.0.0.1:9001 pool-max-conn 0
client web 0 0
piece 0 0 "GET /a HTTP/1.1\r\nHost: h\r\n\r\n"
end 0 40
client web 0 10
piece 10 0 "GET /a HTTP/1.1\r\nHost: h\r\n\r\n"
end 10 40
client web 0 20
piece 20 0 "GET /a HTTP/1.1\r\nHost: h\r\n\r\n"
end 20 40
server web/s1
piece 0 28 "HTTP/1.1 200 OK\r\nContent-Length: 2\r\n\r\nhi"
piece 0 56 "HTTP/1.1 200 OK\r\nContent-Length: 2\r\n\r\nhi"
piece 0 84 "HTTP/1.1 200 OK\r\nContent-Length: 2\r\n\r\nhi"
piece 0 112 "HTTP/1.1 200 OK\r\nContent-Length: 2\r\n\r\nhi"
piece 0 140 "HTTP/1.1 200 OK\r\nContent-Length: 2\r\n\r\nhi"
piece 0 168 "HTTP/1.1 200 OK\r\nContent-Length: 2\r\n\r\nhi"
piece 0 196 "HTTP/1.1 200 OK\r\nContent-Length: 2\r\n\r\nhi"
piece 0 224 "HTTP/1.1 200 OK\r\nContent-Length: 2\r\n\r\nhi"
piece 0 252 "HTTP/1.1 200 OK\r\nContent-Length: 2\r\n\r\nhi"
server web/s1
piece 0 28 "HTTP/1.1 200 OK\r\nContent-Length: 2\r\n\r\nhi"
piece 0 56 "HTTP/1.1 200 OK\r\nContent-Length: 2\r\n\r\nhi"
piece 0 84 "HTTP/1.1 200 OK\r\nContent-Length: 2\r\n\r\nhi"
piece 0 112 "HTTP/1.1 200 OK\r\nContent-Length: 2\r\n\r\nhi"
piece 0 140 "HTTP/1.1 200 OK\r\nContent-Length: 2\r\n\r\nhi"
piece 0 168 "HTTP/1.1 200 OK\r\nContent-Length: 2\r\n\r\nhi"
piece 0 196 "HTTP/1.1 200 OK\r\nContent-Length: 2\r\n\r\nhi"
piece 0 224 "HTTP/1.1 200 OK\r\nContent-Length: 2\r\n\r\nhi"
piece 0 252 "HTTP/1.1 200 OK\r\nContent-Length: 2\r\n\r\nhi"
server web/s1
piece 0 28 "HTTP/1.1 200 OK\r\nContent-Length: 2\r\n\r\nhi"
piece 0 56 "HTTP/1.1 200 OK\r\nContent-Length: 2\r\n\r\nhi"
piece 0 84 "HTTP/1.1 200 OK\r\nContent-Length: 2\r\n\r\nhi"
piece 0 112 "HTTP/1.1 200 OK\r\nContent-Length: 2\r\n\r\nhi"
piece 0 140 "HTTP/1.1 200 OK\r\nContent-Length: 2\r\n\r\nhi"
piece 0 168 "HTTP/1.1 200 OK\r\nContent-Length: 2\r\n\r\nhi"
piece 0 196 "HTTP/1.1 200 OK\r\nContent-Length: 2\r\n\r\nhi"
piece 0 224 "HTTP/1.1 200 OK\r\nContent-Length: 2\r\n\r\nhi"
piece 0 252 "HTTP/1.1 200 OK\r\nContent-Length: 2\r\n\r\nhi"
"#,
    transcript: br#"hx-transcript 1
server web/s1 safe 0 0 5000
open 0.1 1
close 0.1 1
open 0.2 2
close 0.2 2
open 0.3 3
close 0.3 3
gate 0 drain
records
pass 0.1 1 web/s1#1 1 ask 0-28 sent 0-28 took 0-40 gave 0-40 keep
left 0.1 28-28 end
pass 0.2 1 web/s1#2 1 ask 0-28 sent 0-28 took 0-40 gave 0-40 keep
left 0.2 28-28 end
pass 0.3 1 web/s1#3 1 ask 0-28 sent 0-28 took 0-40 gave 0-40 keep
left 0.3 28-28 end
links
client 0.1 took "GET /a HTTP/1.1\r\nHost: h\r\n\r\n"
client 0.1 gave "HTTP/1.1 200 OK\r\nContent-Length: 2\r\n\r\nhi"
client 0.2 took "GET /a HTTP/1.1\r\nHost: h\r\n\r\n"
client 0.2 gave "HTTP/1.1 200 OK\r\nContent-Length: 2\r\n\r\nhi"
client 0.3 took "GET /a HTTP/1.1\r\nHost: h\r\n\r\n"
client 0.3 gave "HTTP/1.1 200 OK\r\nContent-Length: 2\r\n\r\nhi"
conn web/s1#1 sent "GET /a HTTP/1.1\r\nHost: h\r\n\r\n"
conn web/s1#1 took "HTTP/1.1 200 OK\r\nContent-Length: 2\r\n\r\nhi"
conn web/s1#2 sent "GET /a HTTP/1.1\r\nHost: h\r\n\r\n"
conn web/s1#2 took "HTTP/1.1 200 OK\r\nContent-Length: 2\r\n\r\nhi"
conn web/s1#3 sent "GET /a HTTP/1.1\r\nHost: h\r\n\r\n"
conn web/s1#3 took "HTTP/1.1 200 OK\r\nContent-Length: 2\r\n\r\nhi"
totals
web/s1 open 3 park 0 take 0 over 0 care 0 close 3
end
"#,
};

/// One may rest.
pub const ONE_RESTS: Case = Case {
    script: br#"hx-script 1
config 4
listen web
  bind :8080
  http-reuse safe
  server s1 127.0.0.1:9001 pool-max-conn 1
client web 0 0
piece 0 0 "GET /a HTTP/1.1\r\nHost: h\r\n\r\n"
end 0 40
client web 0 10
piece 10 0 "GET /a HTTP/1.1\r\nHost: h\r\n\r\n"
end 10 40
client web 0 20
piece 20 0 "GET /a HTTP/1.1\r\nHost: h\r\n\r\n"
end 20 40
server web/s1
piece 0 28 "HTTP/1.1 200 OK\r\nContent-Length: 2\r\n\r\nhi"
piece 0 56 "HTTP/1.1 200 OK\r\nContent-Length: 2\r\n\r\nhi"
piece 0 84 "HTTP/1.1 200 OK\r\nContent-Length: 2\r\n\r\nhi"
piece 0 112 "HTTP/1.1 200 OK\r\nContent-Length: 2\r\n\r\nhi"
piece 0 140 "HTTP/1.1 200 OK\r\nContent-Length: 2\r\n\r\nhi"
piece 0 168 "HTTP/1.1 200 OK\r\nContent-Length: 2\r\n\r\nhi"
piece 0 196 "HTTP/1.1 200 OK\r\nContent-Length: 2\r\n\r\nhi"
piece 0 224 "HTTP/1.1 200 OK\r\nContent-Length: 2\r\n\r\nhi"
piece 0 252 "HTTP/1.1 200 OK\r\nContent-Length: 2\r\n\r\nhi"
server web/s1
piece 0 28 "HTTP/1.1 200 OK\r\nContent-Length: 2\r\n\r\nhi"
piece 0 56 "HTTP/1.1 200 OK\r\nContent-Length: 2\r\n\r\nhi"
piece 0 84 "HTTP/1.1 200 OK\r\nContent-Length: 2\r\n\r\nhi"
piece 0 112 "HTTP/1.1 200 OK\r\nContent-Length: 2\r\n\r\nhi"
piece 0 140 "HTTP/1.1 200 OK\r\nContent-Length: 2\r\n\r\nhi"
piece 0 168 "HTTP/1.1 200 OK\r\nContent-Length: 2\r\n\r\nhi"
piece 0 196 "HTTP/1.1 200 OK\r\nContent-Length: 2\r\n\r\nhi"
piece 0 224 "HTTP/1.1 200 OK\r\nContent-Length: 2\r\n\r\nhi"
piece 0 252 "HTTP/1.1 200 OK\r\nContent-Length: 2\r\n\r\nhi"
server web/s1
piece 0 28 "HTTP/1.1 200 OK\r\nContent-Length: 2\r\n\r\nhi"
piece 0 56 "HTTP/1.1 200 OK\r\nContent-Length: 2\r\n\r\nhi"
piece 0 84 "HTTP/1.1 200 OK\r\nContent-Length: 2\r\n\r\nhi"
piece 0 112 "HTTP/1.1 200 OK\r\nContent-Length: 2\r\n\r\nhi"
piece 0 140 "HTTP/1.1 200 OK\r\nContent-Length: 2\r\n\r\nhi"
piece 0 168 "HTTP/1.1 200 OK\r\nContent-Length: 2\r\n\r\nhi"
piece 0 196 "HTTP/1.1 200 OK\r\nContent-Length: 2\r\n\r\nhi"
piece 0 224 "HTTP/1.1 200 OK\r\nContent-Length: 2\r\n\r\nhi"
piece 0 252 "HTTP/1.1 200 OK\r\nContent-Length: 2\r\n\r\nhi"
"#,
    transcript: br#"hx-transcript 1
server web/s1 safe 1 0 5000
open 0.1 1
park 0.1 1 0:0 1
open 0.2 2
close 0.2 2
open 0.3 3
close 0.3 3
gate 0 drain
take 0.0 1 0:0 1 later
close 0.0 1
records
pass 0.1 1 web/s1#1 1 ask 0-28 sent 0-28 took 0-40 gave 0-40 keep
left 0.1 28-28 end
pass 0.2 1 web/s1#2 1 ask 0-28 sent 0-28 took 0-40 gave 0-40 keep
left 0.2 28-28 end
pass 0.3 1 web/s1#3 1 ask 0-28 sent 0-28 took 0-40 gave 0-40 keep
left 0.3 28-28 end
links
client 0.1 took "GET /a HTTP/1.1\r\nHost: h\r\n\r\n"
client 0.1 gave "HTTP/1.1 200 OK\r\nContent-Length: 2\r\n\r\nhi"
client 0.2 took "GET /a HTTP/1.1\r\nHost: h\r\n\r\n"
client 0.2 gave "HTTP/1.1 200 OK\r\nContent-Length: 2\r\n\r\nhi"
client 0.3 took "GET /a HTTP/1.1\r\nHost: h\r\n\r\n"
client 0.3 gave "HTTP/1.1 200 OK\r\nContent-Length: 2\r\n\r\nhi"
conn web/s1#1 sent "GET /a HTTP/1.1\r\nHost: h\r\n\r\n"
conn web/s1#1 took "HTTP/1.1 200 OK\r\nContent-Length: 2\r\n\r\nhi"
conn web/s1#2 sent "GET /a HTTP/1.1\r\nHost: h\r\n\r\n"
conn web/s1#2 took "HTTP/1.1 200 OK\r\nContent-Length: 2\r\n\r\nhi"
conn web/s1#3 sent "GET /a HTTP/1.1\r\nHost: h\r\n\r\n"
conn web/s1#3 took "HTTP/1.1 200 OK\r\nContent-Length: 2\r\n\r\nhi"
totals
web/s1 open 3 park 1 take 0 over 0 care 1 close 3
end
"#,
};

/// A round closes one of two.
pub const ROUND: Case = Case {
    script: br#"hx-script 1
config 4
listen web
  bind :8080
  http-reuse safe
  server s1 127.0.0.1:9001 
client web 0 0
piece 0 0 "GET /a HTTP/1.1\r\nHost: h\r\n\r\n"
end 0 40
client web 0 10
piece 10 0 "GET /a HTTP/1.1\r\nHost: h\r\n\r\n"
end 10 40
server web/s1
piece 0 28 "HTTP/1.1 200 OK\r\nContent-Length: 2\r\n\r\nhi"
piece 0 56 "HTTP/1.1 200 OK\r\nContent-Length: 2\r\n\r\nhi"
server web/s1
piece 0 28 "HTTP/1.1 200 OK\r\nContent-Length: 2\r\n\r\nhi"
piece 0 56 "HTTP/1.1 200 OK\r\nContent-Length: 2\r\n\r\nhi"
tick 5000
"#,
    transcript: br#"hx-transcript 1
server web/s1 safe -1 0 5000
open 0.1 1
park 0.1 1 0:0 1
open 0.2 2
park 0.2 2 0:1 1
round 0 1 0
take 0.0 1 0:0 1 later
close 0.0 1
gate 0 drain
take 0.0 2 0:1 1 later
close 0.0 2
records
pass 0.1 1 web/s1#1 1 ask 0-28 sent 0-28 took 0-40 gave 0-40 keep
left 0.1 28-28 end
pass 0.2 1 web/s1#2 1 ask 0-28 sent 0-28 took 0-40 gave 0-40 keep
left 0.2 28-28 end
links
client 0.1 took "GET /a HTTP/1.1\r\nHost: h\r\n\r\n"
client 0.1 gave "HTTP/1.1 200 OK\r\nContent-Length: 2\r\n\r\nhi"
client 0.2 took "GET /a HTTP/1.1\r\nHost: h\r\n\r\n"
client 0.2 gave "HTTP/1.1 200 OK\r\nContent-Length: 2\r\n\r\nhi"
conn web/s1#1 sent "GET /a HTTP/1.1\r\nHost: h\r\n\r\n"
conn web/s1#1 took "HTTP/1.1 200 OK\r\nContent-Length: 2\r\n\r\nhi"
conn web/s1#2 sent "GET /a HTTP/1.1\r\nHost: h\r\n\r\n"
conn web/s1#2 took "HTTP/1.1 200 OK\r\nContent-Length: 2\r\n\r\nhi"
totals
web/s1 open 2 park 2 take 0 over 0 care 2 close 2
end
"#,
};

/// A drain while an answer is under way.
pub const DRAIN: Case = Case {
    script: br#"hx-script 1
config 4
listen web
  bind :8080
  http-reuse safe
  server s1 127.0.0.1:9001 
client web 0 0
piece 0 0 "GET /a HTTP/1.1\r\nHost: h\r\n\r\n"
end 0 40
client web 0 10
piece 10 0 "GET /a HTTP/1.1\r\nHost: h\r\n\r\n"
end 10 40
client web 0 20
piece 20 0 "GET /a HTTP/1.1\r\nHost: h\r\n\r\n"
end 20 40
server web/s1
piece 0 28 "HTTP/1.1 200 OK\r\nContent-Length: 2\r\n\r\nhi"
server web/s1
piece 0 28 "HTTP/1.1 200 OK\r\nContent-Length: 2\r\n\r\nhi"
server web/s1
piece 40 28 "HTTP/1.1 200 OK\r\nContent-Length: 2\r\n\r\nhi"
drain 30 web/s1
"#,
    transcript: br#"hx-transcript 1
server web/s1 safe -1 0 5000
open 0.1 1
park 0.1 1 0:0 1
open 0.2 2
park 0.2 2 0:1 1
open 0.3 3
gate 0 drain
take 0.0 1 0:0 1 later
close 0.0 1
take 0.0 2 0:1 1 later
close 0.0 2
close 0.3 3
gate 0 drain
records
pass 0.1 1 web/s1#1 1 ask 0-28 sent 0-28 took 0-40 gave 0-40 keep
left 0.1 28-28 end
pass 0.2 1 web/s1#2 1 ask 0-28 sent 0-28 took 0-40 gave 0-40 keep
left 0.2 28-28 end
pass 0.3 1 web/s1#3 1 ask 0-28 sent 0-28 took 0-40 gave 0-40 keep
left 0.3 28-28 end
links
client 0.1 took "GET /a HTTP/1.1\r\nHost: h\r\n\r\n"
client 0.1 gave "HTTP/1.1 200 OK\r\nContent-Length: 2\r\n\r\nhi"
client 0.2 took "GET /a HTTP/1.1\r\nHost: h\r\n\r\n"
client 0.2 gave "HTTP/1.1 200 OK\r\nContent-Length: 2\r\n\r\nhi"
client 0.3 took "GET /a HTTP/1.1\r\nHost: h\r\n\r\n"
client 0.3 gave "HTTP/1.1 200 OK\r\nContent-Length: 2\r\n\r\nhi"
conn web/s1#1 sent "GET /a HTTP/1.1\r\nHost: h\r\n\r\n"
conn web/s1#1 took "HTTP/1.1 200 OK\r\nContent-Length: 2\r\n\r\nhi"
conn web/s1#2 sent "GET /a HTTP/1.1\r\nHost: h\r\n\r\n"
conn web/s1#2 took "HTTP/1.1 200 OK\r\nContent-Length: 2\r\n\r\nhi"
conn web/s1#3 sent "GET /a HTTP/1.1\r\nHost: h\r\n\r\n"
conn web/s1#3 took "HTTP/1.1 200 OK\r\nContent-Length: 2\r\n\r\nhi"
totals
web/s1 open 3 park 2 take 0 over 0 care 2 close 3
end
"#,
};

/// The server ended while its connection rested.
pub const ENDED_AT_REST: Case = Case {
    script: br#"hx-script 1
config 4
listen web
  bind :8080
  http-reuse always
  server s1 127.0.0.1:9001
client web 0 0
piece 0 0 "GET /a HTTP/1.1\r\nHost: h\r\n\r\n"
end 0 40
client web 0 20
piece 20 0 "GET /a HTTP/1.1\r\nHost: h\r\n\r\n"
end 20 40
server web/s1
piece 0 28 "HTTP/1.1 200 OK\r\nContent-Length: 2\r\n\r\nhi"
end 10 0
server web/s1
piece 0 28 "HTTP/1.1 200 OK\r\nContent-Length: 2\r\n\r\nhi"
piece 0 56 "HTTP/1.1 200 OK\r\nContent-Length: 2\r\n\r\nhi"
"#,
    transcript: br#"hx-transcript 1
server web/s1 always -1 0 5000
open 0.1 1
park 0.1 1 0:0 1
take 0.2 1 0:0 1 first
close 0.2 1
open 0.2 2
park 0.2 2 0:0 1
gate 0 drain
take 0.0 2 0:0 1 later
close 0.0 2
records
pass 0.1 1 web/s1#1 1 ask 0-28 sent 0-28 took 0-40 gave 0-40 keep
left 0.1 28-28 end
pass 0.2 1 web/s1#2 1 ask 0-28 sent 0-28 took 0-40 gave 0-40 keep
left 0.2 28-28 end
links
client 0.1 took "GET /a HTTP/1.1\r\nHost: h\r\n\r\n"
client 0.1 gave "HTTP/1.1 200 OK\r\nContent-Length: 2\r\n\r\nhi"
client 0.2 took "GET /a HTTP/1.1\r\nHost: h\r\n\r\n"
client 0.2 gave "HTTP/1.1 200 OK\r\nContent-Length: 2\r\n\r\nhi"
conn web/s1#1 sent "GET /a HTTP/1.1\r\nHost: h\r\n\r\n"
conn web/s1#1 took "HTTP/1.1 200 OK\r\nContent-Length: 2\r\n\r\nhi"
conn web/s1#2 sent "GET /a HTTP/1.1\r\nHost: h\r\n\r\n"
conn web/s1#2 took "HTTP/1.1 200 OK\r\nContent-Length: 2\r\n\r\nhi"
totals
web/s1 open 2 park 2 take 1 over 0 care 1 close 2
end
"#,
};

/// The server spoke while its connection rested.
pub const SPOKE_AT_REST: Case = Case {
    script: br#"hx-script 1
config 4
listen web
  bind :8080
  http-reuse always
  server s1 127.0.0.1:9001
client web 0 0
piece 0 0 "GET /a HTTP/1.1\r\nHost: h\r\n\r\n"
end 0 40
client web 0 20
piece 20 0 "GET /a HTTP/1.1\r\nHost: h\r\n\r\n"
end 20 40
server web/s1
piece 0 28 "HTTP/1.1 200 OK\r\nContent-Length: 2\r\n\r\nhi"
piece 10 0 "x"
server web/s1
piece 0 28 "HTTP/1.1 200 OK\r\nContent-Length: 2\r\n\r\nhi"
piece 0 56 "HTTP/1.1 200 OK\r\nContent-Length: 2\r\n\r\nhi"
"#,
    transcript: br#"hx-transcript 1
server web/s1 always -1 0 5000
open 0.1 1
park 0.1 1 0:0 1
take 0.2 1 0:0 1 first
close 0.2 1
open 0.2 2
park 0.2 2 0:0 1
gate 0 drain
take 0.0 2 0:0 1 later
close 0.0 2
records
pass 0.1 1 web/s1#1 1 ask 0-28 sent 0-28 took 0-40 gave 0-40 keep
left 0.1 28-28 end
pass 0.2 1 web/s1#2 1 ask 0-28 sent 0-28 took 0-40 gave 0-40 keep
left 0.2 28-28 end
links
client 0.1 took "GET /a HTTP/1.1\r\nHost: h\r\n\r\n"
client 0.1 gave "HTTP/1.1 200 OK\r\nContent-Length: 2\r\n\r\nhi"
client 0.2 took "GET /a HTTP/1.1\r\nHost: h\r\n\r\n"
client 0.2 gave "HTTP/1.1 200 OK\r\nContent-Length: 2\r\n\r\nhi"
conn web/s1#1 sent "GET /a HTTP/1.1\r\nHost: h\r\n\r\n"
conn web/s1#1 took "HTTP/1.1 200 OK\r\nContent-Length: 2\r\n\r\nhix"
conn web/s1#2 sent "GET /a HTTP/1.1\r\nHost: h\r\n\r\n"
conn web/s1#2 took "HTTP/1.1 200 OK\r\nContent-Length: 2\r\n\r\nhi"
totals
web/s1 open 2 park 2 take 1 over 0 care 1 close 2
end
"#,
};
