//! Configurations in scripts: their faults, and what isn't built.
ghost use Rattle.std.specs.Prelude.{◌≡◌, IfOk};

use super::{NEVER, SCRIPT, run};
use std::alloc::Global;
use std::test::Fail;

#[test]
fn the_first_fault_of_a_configuration_is_told(rt: HostRuntime) -> Result<(), Fail> {
    for (script, line) in [
        (
            "hx-script 1\nconfig 3\nlisten web\n  http-reuse sometimes\n  server s 1.2.3.4:1\n",
            "config 2 2\n",
        ),
        // The last line of the configuration lacks its line feed.
        (
            "hx-script 1\nconfig 3\nlisten web\n\n  mode tcp",
            "config 3 2\n",
        ),
        // The script goes on, with a line that isn't one of a script.
        (
            "hx-script 1\nconfig 1\nbind :80\nno line of a script\n",
            "config 1 3\n",
        ),
        // Of two faults the first, and at last those of whole sections.
        (
            "hx-script 1\nconfig 3\nlisten web\n  bind :0\n  bind :70000\n",
            "config 2 7\n",
        ),
        (
            "hx-script 1\nconfig 3\nfrontend f\n  default_backend b\nbackend c\n",
            "config 1 9\n",
        ),
        ("hx-script 1\nconfig 1\nlisten web\n", "config 1 11\n"),
        // Lines behind the configuration are not its own.
        (
            "hx-script 1\nconfig 1\nlisten web\n  server s 1.2.3.4:1\n",
            "config 1 11\n",
        ),
    ] {
        let ran = run(&rt, "replay", script, NEVER)?;
        assert_eq!(rt; (script, ran.status), (script, 4));
        assert_eq!(rt; ran.text.as_slice(), line.as_bytes());
    }
    Ok(())
}

#[test]
fn a_text_that_does_not_begin_as_a_script_has_no_configuration(
    rt: HostRuntime,
) -> Result<(), Fail> {
    for (script, told) in [
        // Too few lines.
        ("hx-script 1\nconfig 1", "script 2 2\n"),
        ("hx-script 1\nconfig 1\n", "script 2 2\n"),
        (
            "hx-script 1\nconfig 3\nlisten web\n  http-reuse sometimes\n",
            "script 2 2\n",
        ),
        ("hx-script 1\nconfig 1000000000000\nbad\n", "script 2 2\n"),
        // No number that a script writes.
        ("hx-script 1\nconfig 01\nbad\n", "script 2 3\n"),
        ("hx-script 1\nconfig +1\nbad\n", "script 2 3\n"),
        ("hx-script 1\nconfig \nbad\n", "script 2 3\n"),
        ("hx-script 1\nconfig 1000000000001\nbad\n", "script 2 3\n"),
        (
            "hx-script 1\nconfig 99999999999999999999999\nbad\n",
            "script 2 3\n",
        ),
        ("hx-script 1\nconfig 1 \nbad\n", "script 2 2\n"),
        // Other first lines.
        ("hx-script 1\r\nconfig 1\nbad\n", "script 1 1\n"),
        ("hx-script 2\nconfig 1\nbad\n", "script 1 1\n"),
        ("hx-script 1\n\nconfig 1\nbad\n", "script 2 2\n"),
    ] {
        let ran = run(&rt, "replay", script, NEVER)?;
        assert_eq!(rt; (script, ran.status), (script, 5));
        assert_eq!(rt; ran.text.as_slice(), told.as_bytes());
    }
    Ok(())
}

/// A configuration as it is often written: four threads, and three servers.
const USUAL: &str = "hx-script 1
config 28
global
    log /dev/log local0
    user haproxy
    group haproxy
    daemon
    maxconn 4000
    nbthread 4

defaults
    log global
    mode http
    option httplog
    option dontlognull
    timeout connect 5s
    timeout client 50s
    timeout server 50s

frontend www
    bind *:80
    default_backend app

backend app
    balance roundrobin
    http-reuse safe
    default-server pool-max-conn 20 pool-purge-delay 10s check
    server a 10.0.0.1:8080
    server b 10.0.0.2:8080 pool-low-conn 2
    server c 10.0.0.3:8080 # spare
client www 0 0
";

/// The script of the first GET, with a part of it in other words.
fn changed(alloc: Global, old: &str, new: &str) -> Result<String, Fail> {
    let mut text = String::new(alloc);
    match SCRIPT.split_once(old) {
        Some((before, after)) => {
            text.push_str(before)?;
            text.push_str(new)?;
            text.push_str(after)?;
        }
        None => {}
    }
    Ok(text)
}

#[test]
fn other_configurations_are_replayed_and_other_names_are_faults(
    rt: HostRuntime,
) -> Result<(), Fail> {
    let ran = run(&rt, "replay", USUAL, NEVER)?;
    // Several threads.
    assert_eq!(rt;
        (ran.status, ran.text.as_slice()),
        (5, "script 2 7\n".as_bytes())
    );
    for (old, new, status) in [
        ("s1 127", "s1 127", 0),
        ("config 4", "config 3", 4),
        ("config 4\n", "config 5\nglobal\n", 0),
        ("config 4\n", "config 6\nglobal\nnbthread 2\n", 5),
        ("config 4\n", "config 5\nbackend other\n", 0),
        ("client web", "client webs", 5),
        ("client web", "client we", 5),
        ("client web 0 0", "client web 0 1", 0),
        ("client web 0 0", "client web 1 0", 5),
        ("server web/s1", "server web/s2", 5),
        ("server web/s1", "server wob/s1", 5),
        ("server web/s1", "server web/s1 refuse", 5),
    ] {
        let script = changed(rt.alloc(), old, new)?;
        let ran = run(&rt, "replay", script.as_str(), NEVER)?;
        assert_eq!(rt; (new, ran.status), (new, status));
    }
    Ok(())
}
