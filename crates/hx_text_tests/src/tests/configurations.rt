use hx_base::{Millis, Mode, PoolRules, ServerNo};
use hx_config::*;
use std::alloc::Global;
use std::test::Fail;

const USUAL: &str = "global
    log /dev/log local0
    user haproxy
    group haproxy
    daemon
    maxconn 4000
    nbthread 4

defaults
    log global
    mode http
    option httplog
    option dontlognull
    timeout connect 5s
    timeout client 50s
    timeout server 50s

frontend www
    bind *:80
    default_backend app

backend app
    balance roundrobin
    http-reuse safe
    default-server pool-max-conn 20 pool-purge-delay 10s check
    server a 10.0.0.1:8080
    server b 10.0.0.2:8080 pool-low-conn 2
    server c 10.0.0.3:8080 # spare
";

fn read(alloc: Global, text: &str) -> Result<Config, &'static str> {
    read_config(alloc, text.as_bytes()).map_err(|_| "the text has no fault")
}

#[test]
fn a_usual_file(rt: HostRuntime) -> Result<(), Fail> {
    let config = read(rt.alloc(), USUAL)?;
    assert_eq!(rt; config.threads, 4);
    assert_eq!(rt;
        config.passed_over.as_slice(),
        [2, 3, 4, 5, 6, 10, 12, 13, 25].as_slice()
    );
    for front in config.fronts.as_slice() {
        assert_eq!(rt; front.name.as_slice(), b"www".as_slice());
        let bind = Address {
            host: Host::Any,
            port: 80,
        };
        assert_eq!(rt; front.binds.as_slice(), [bind].as_slice());
        assert_eq!(rt; front.back, 0);
        assert_eq!(rt; front.client, Some(Millis(50_000)));
        assert_eq!(rt; front.keep_alive, None);
    }
    assert_eq!(rt; config.fronts.as_slice().len(), 1);
    assert_eq!(rt; config.backs.as_slice().len(), 1);
    let rows = [("a", 0, 1, 0), ("b", 1, 2, 2), ("c", 2, 3, 0)];
    for back in config.backs.as_slice() {
        assert_eq!(rt; back.name.as_slice(), b"app".as_slice());
        assert_eq!(rt; back.connect, Some(Millis(5000)));
        assert_eq!(rt; back.server, Some(Millis(50_000)));
        assert_eq!(rt; back.servers.as_slice().len(), 3);
        for (server, (name, no, last, low)) in back.servers.as_slice().iter().zip(&rows) {
            assert_eq!(rt; server.name.as_slice(), name.as_bytes());
            assert_eq!(rt; server.no, ServerNo(*no));
            let host = Host::V4(10, 0, 0, *last);
            assert_eq!(rt; server.address, Address { host, port: 8080 });
            let rules = PoolRules {
                mode: Mode::Safe,
                max: Some(20),
                low: *low,
                delay: Millis(10_000),
            };
            assert_eq!(rt; server.rules, rules);
        }
    }
    Ok(())
}

// Texts, the line of the first fault and its rule.
const FAULTS: [(&str, u32, u8); 77] = [
    ("glob\u{7f}l", 1, 1),
    ("global\r", 1, 1),
    ("\n#\u{7f}\nglobal\n nbthread 4 \u{1}", 4, 1),
    ("defaults\n option \u{e9}", 2, 1),
    ("frob", 1, 2),
    ("global x", 1, 2),
    ("defaults a b", 1, 2),
    ("frontend a/b", 1, 2),
    ("defaults\n http-reuse sometimes", 2, 2),
    ("defaults\n mode tcp", 2, 2),
    ("defaults\n balance leastconn", 2, 2),
    ("defaults\n option forwardfor", 2, 2),
    ("defaults\n timeout tunnel 1s", 2, 2),
    ("defaults\n default-server weight 1", 2, 2),
    ("frontend a\n timeout connect 5s", 2, 2),
    ("frontend a\n timeout server 5s", 2, 2),
    ("backend a\n timeout client 5s", 2, 2),
    ("backend a\n server s 1.1.1.1:1 check x", 2, 2),
    ("nbthread 4", 1, 3),
    ("log x", 1, 3),
    ("global\n mode http", 2, 3),
    ("global\n option httplog", 2, 3),
    ("global\n timeout client 1s", 2, 3),
    ("global\n retries 3", 2, 3),
    ("defaults\n nbthread 2", 2, 3),
    ("defaults\n bind :80", 2, 3),
    ("defaults\n server s 1.1.1.1:1", 2, 3),
    ("defaults\n chroot x", 2, 3),
    ("frontend a\n server s 1.1.1.1:1", 2, 3),
    ("frontend a\n http-reuse safe", 2, 3),
    ("frontend a\n balance roundrobin", 2, 3),
    ("frontend a\n default-server check", 2, 3),
    ("frontend a\n daemon", 2, 3),
    ("backend a\n bind :80", 2, 3),
    ("backend a\n default_backend a", 2, 3),
    ("listen a\n nbthread 2", 2, 3),
    ("frontend", 1, 4),
    ("global\n nbthread", 2, 4),
    ("defaults\n timeout", 2, 4),
    ("defaults\n timeout client", 2, 4),
    ("defaults\n default-server inter", 2, 4),
    ("backend a\n server s", 2, 4),
    ("listen a\n bind # :80", 2, 4),
    ("global\n nbthread 0", 2, 5),
    ("global\n nbthread 17", 2, 5),
    ("global\n nbthread 4x", 2, 5),
    ("defaults\n default-server pool-max-conn -2", 2, 5),
    ("defaults\n default-server pool-max-conn 1000001", 2, 5),
    ("defaults\n default-server pool-low-conn -1", 2, 5),
    ("defaults\n default-server rise x", 2, 5),
    ("defaults\n timeout client 30x", 2, 6),
    ("defaults\n timeout client s", 2, 6),
    ("defaults\n timeout client 25d", 2, 6),
    ("defaults\n timeout client 2147483648", 2, 6),
    ("defaults\n default-server inter 5q", 2, 6),
    ("frontend a\n bind 80", 2, 7),
    ("frontend a\n bind :0", 2, 7),
    ("frontend a\n bind :65536", 2, 7),
    ("frontend a\n bind 1.2.3:80", 2, 7),
    ("frontend a\n bind 1.2.3.256:80", 2, 7),
    ("frontend a\n bind 1.2.03.4:80", 2, 7),
    ("backend a\n server s *:80", 2, 7),
    ("backend a\n server s :80", 2, 7),
    ("backend a\n server s example.org:80", 2, 7),
    ("frontend a\nfrontend a", 2, 8),
    ("listen a\nfrontend a", 2, 8),
    ("backend a\nlisten a", 2, 8),
    ("backend a\n server s 1.1.1.1:1\n server s x", 3, 8),
    ("frontend a\n bind :80", 1, 9),
    (
        "frontend a\n default_backend c\nbackend b\n server s 1.1.1.1:1",
        1,
        9,
    ),
    ("frontend a\n default_backend b\nbackend b", 3, 11),
    ("listen a\n bind :80", 1, 11),
    (
        "frontend a\n default_backend b\nbackend b\nfrontend c",
        4,
        9,
    ),
    ("frontend a\n bind :0\n bind x y", 2, 7),
    ("backend a\n server s/ x y", 2, 2),
    ("frontend a\nfrontend a x", 2, 8),
    ("global\n nbthread 0 x", 2, 5),
];

#[test]
fn first_faults(rt: HostRuntime) -> Result<(), Fail> {
    for (text, line, rule) in &FAULTS {
        match read_config(rt.alloc(), text.as_bytes()) {
            Err(fault) => {
                let first = ConfigFault::At {
                    line: *line,
                    rule: *rule,
                };
                assert_eq!(rt; fault, first, "in {text}");
            }
            Ok(_) => assert!(rt; false, "no fault in {text}"),
        }
    }
    Ok(())
}

// The head, then the line so many times.
fn repeated(alloc: Global, head: &str, line: &str, times: u32) -> Result<Vec<u8>, Fail> {
    let mut text = Vec::from_slice(alloc, head.as_bytes())?;
    for _ in 0..times {
        text.extend_from_slice(line.as_bytes())?;
    }
    Ok(text)
}

#[test]
fn limits(rt: HostRuntime) -> Result<(), Fail> {
    let head = "listen a\n server s 1.1.1.1:10\n";
    for (line, most, more, at) in [(" bind :1\n", 16, 17, 19), ("#\n", 131_057, 131_058, 1)] {
        let text = repeated(rt.alloc(), head, line, most)?;
        assert!(rt;
            read_config(rt.alloc(), &text).is_ok(),
            "{most} are few enough"
        );
        let text = repeated(rt.alloc(), head, line, more)?;
        match read_config(rt.alloc(), &text) {
            Err(fault) => assert_eq!(rt; fault, ConfigFault::At { line: at, rule: 10 }),
            Ok(_) => assert!(rt; false, "one too many is refused"),
        }
    }
    Ok(())
}

// Which rules the servers have, in order.
fn rules_of(alloc: Global, text: &str) -> Result<Vec<PoolRules>, Fail> {
    let mut rules = Vec::new(alloc);
    let config = read(alloc, text)?;
    for back in config.backs.as_slice() {
        for server in back.servers.as_slice() {
            rules.push(server.rules)?;
        }
    }
    Ok(rules)
}

fn pool(mode: Mode, max: Option<u32>, delay: u64) -> PoolRules {
    PoolRules {
        mode,
        max,
        low: 0,
        delay: Millis(delay),
    }
}

#[test]
fn what_lines_mean(rt: HostRuntime) -> Result<(), Fail> {
    let usual = pool(Mode::Safe, None, 5000);
    let text =
        "defaults\n http-reuse never\n default-server pool-max-conn 3\ndefaults\nbackend b\n server s localhost:1";
    assert_eq!(rt; rules_of(rt.alloc(), text)?.as_slice(), [usual].as_slice());
    let text =
        "defaults\n http-reuse never\nbackend b\r\n server s 1.2.3.4:016\r\n http-reuse safe\r\n http-reuse always # \u{7f}\r\n default-server pool-max-conn 3\n default-server pool-purge-delay 1500us\n server t 1.2.3.4:1 pool-max-conn 4 pool-max-conn -1\n server u 1.2.3.4:1";
    let first = pool(Mode::Always, None, 5000);
    let second = pool(Mode::Always, None, 2);
    let third = pool(Mode::Always, Some(3), 2);
    assert_eq!(rt;
        rules_of(rt.alloc(), text)?.as_slice(),
        [first, second, third].as_slice()
    );
    for (time, millis) in [
        ("5000", 5000),
        ("1d", 86_400_000),
        ("2h", 7_200_000),
        ("3m", 180_000),
        ("7ms", 7),
        ("0us", 0),
        ("2147483647", 2_147_483_647),
    ] {
        let text = format!(in rt.alloc();
            "backend b\n server s 1.1.1.1:1 pool-purge-delay {time}"
        )?;
        assert_eq!(rt;
            rules_of(rt.alloc(), text.as_str())?.as_slice(),
            [pool(Mode::Safe, None, millis)].as_slice()
        );
    }
    Ok(())
}

// Lines, and what each is in `global`, `defaults`, `frontend`, `backend` and `listen`, in this order: read (r), passed over (p),
// unknown (2) or in the wrong place (3).
const CELLS: [(&str, &str); 48] = [
    ("nbthread 4", "r3333"),
    ("mode http", "3rrrr"),
    ("bind :80", "33r3r"),
    ("bind *:80", "33r3r"),
    ("bind localhost:65535", "33r3r"),
    ("bind 255.0.0.1:1", "33r3r"),
    ("default_backend x", "3rr3r"),
    ("balance roundrobin", "3r3rr"),
    ("http-reuse never", "3r3rr"),
    ("http-reuse safe", "3r3rr"),
    ("http-reuse aggressive", "3r3rr"),
    ("http-reuse always", "3r3rr"),
    ("timeout connect 1s", "3r2rr"),
    ("timeout server 1s", "3r2rr"),
    ("timeout client 1s", "3rr2r"),
    ("timeout http-keep-alive 1s", "3rrpr"),
    ("default-server pool-max-conn -1", "3r3rr"),
    ("default-server pool-low-conn 1000000", "3r3rr"),
    ("default-server pool-purge-delay 1s", "3r3rr"),
    ("default-server check", "3p3pp"),
    ("default-server inter 1s", "3p3pp"),
    ("default-server rise 1 fall 2", "3p3pp"),
    ("default-server maxconn 1", "3p3pp"),
    ("server s 1.1.1.1:1", "333rr"),
    ("server s localhost:1 pool-max-conn 1000000", "333rr"),
    (
        "server s 1.1.1.1:1 check inter 1s rise 1 fall 2 maxconn 3",
        "333pp",
    ),
    ("log \u{7f}", "ppppp"),
    ("maxconn 4", "ppppp"),
    ("chroot x", "p3333"),
    ("stats x", "p3333"),
    ("user x", "p3333"),
    ("group x", "p3333"),
    ("daemon", "p3333"),
    ("pidfile x", "p3333"),
    ("ca-base x", "p3333"),
    ("crt-base x", "p3333"),
    ("ssl-default-bind-ciphers x", "p3333"),
    ("ssl-default-bind-ciphersuites x", "p3333"),
    ("ssl-default-bind-options x", "p3333"),
    ("errorfile 503 x", "3pppp"),
    ("retries 3", "3pppp"),
    ("option httplog", "3pppp"),
    ("option dontlognull", "3pppp"),
    ("option http-keep-alive", "3pppp"),
    ("option redispatch 1", "3pppp"),
    ("timeout http-request 1s", "3pppp"),
    ("timeout queue 1s", "3pppp"),
    ("timeout check 1s", "3pppp"),
];

// Each section's first line, and what makes the text whole after one more line.
const SECTIONS: [(&str, &str); 5] = [
    ("global\n", "\n"),
    ("defaults\n", "\n"),
    (
        "frontend a\n",
        "\n default_backend b\nbackend b\n server t 1.1.1.1:1\n",
    ),
    ("backend a\n", "\n"),
    ("listen a\n", "\n default_backend a\n server t 1.1.1.1:1\n"),
];

fn cell(alloc: Global, text: &str) -> char {
    match read_config(alloc, text.as_bytes()) {
        Ok(config) => match config.passed_over.as_slice() {
            [] => 'r',
            [2] => 'p',
            _ => 'o',
        },
        Err(ConfigFault::At { line: 2, rule: 2 }) => '2',
        Err(ConfigFault::At { line: 2, rule: 3 }) => '3',
        Err(_) => 'f',
    }
}

#[test]
fn each_line_in_each_section(rt: HostRuntime) -> Result<(), Fail> {
    for (line, cells) in &CELLS {
        for ((head, tail), wanted) in SECTIONS.iter().zip(cells.chars()) {
            let text = format!(in rt.alloc(); "{head}{line}{tail}")?;
            assert_eq!(rt; cell(rt.alloc(), text.as_str()), wanted, "{line} in {head}");
        }
    }
    Ok(())
}

#[test]
fn sections_and_servers_to_their_limits(rt: HostRuntime) -> Result<(), Fail> {
    // The head, the line of each number, how many are few enough, and the line of one more.
    for (head, before, after, most, at) in [
        (
            "backend b\n server s 1.1.1.1:1\n",
            "frontend f",
            "\n default_backend b\n",
            16,
            35,
        ),
        ("", "backend b", "\n", 16, 17),
        ("backend b\n", " server s", " 1.1.1.1:1\n", 32, 34),
    ] {
        let mut text = String::new(rt.alloc());
        text.push_str(head)?;
        for i in 0..most {
            let line = format!(in rt.alloc(); "{before}{i}{after}")?;
            text.push_str(line.as_str())?;
        }
        assert!(rt;
            read(rt.alloc(), text.as_str()).is_ok(),
            "{most} are few enough"
        );
        let line = format!(in rt.alloc(); "{before}{most}{after}")?;
        text.push_str(line.as_str())?;
        match read_config(rt.alloc(), text.as_bytes()) {
            Err(fault) => assert_eq!(rt; fault, ConfigFault::At { line: at, rule: 10 }),
            Ok(_) => assert!(rt; false, "one too many is refused"),
        }
    }
    Ok(())
}
