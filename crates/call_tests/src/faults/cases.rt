//! Commands over small files: what each prints, and how many calls of the store it needs. A file is
//! read by two calls, of which the second finds its end, and written by one; the proof of `lrat` is
//! gone through twice, and so are a certificate of `check` and the old report of `recheck`.

use super::Case;

const R1: &str =
    "hostname r1\n!\ninterface GigabitEthernet0/0\n ip address 10.1.0.1 255.255.255.0\n!\n\
      interface GigabitEthernet0/1\n\x20ip address 10.0.1.1 255.255.255.252\n!\n\
      router ospf 1\n\x20network 0.0.0.0 255.255.255.255 area 0\n!\nend\n";

const R2: &str =
    "hostname r2\n!\ninterface GigabitEthernet0/0\n ip address 10.2.0.1 255.255.255.0\n!\n\
      interface GigabitEthernet0/1\n\x20ip address 10.0.1.2 255.255.255.252\n!\n\
      router ospf 1\n\x20network 0.0.0.0 255.255.255.255 area 0\n!\nend\n";

const R2_WITH_A_LIST: &str =
    "hostname r2\n!\ninterface GigabitEthernet0/0\n ip address 10.2.0.1 255.255.255.0\n!\n\
      interface GigabitEthernet0/1\n\x20ip address 10.0.1.2 255.255.255.252\n\
      \x20ip access-group NONE in\n!\n\
      router ospf 1\n\x20network 0.0.0.0 255.255.255.255 area 0\n!\nend\n";

const R1_WITH_A_LIST: &str =
    "hostname r1\n!\ninterface GigabitEthernet0/0\n ip address 10.1.0.1 255.255.255.0\n\
      \x20ip access-group F in\n!\n\
      interface GigabitEthernet0/1\n\x20ip address 10.0.1.1 255.255.255.252\n!\n\
      ip access-list extended F\n\x201 permit ip 10.3.0.0 0.0.0.255 any\n\
      \x202 deny ip any host 10.9.9.9\n\
      \x203 permit ip any any\nrouter ospf 1\n\x20network 0.0.0.0 255.255.255.255 area 0\n!\nend\n";

const BLOCKED: &str = r#"{"version": 1, "routers": ["r1.cfg", "r2.cfg"],
 "links": [{"a": "r1:GigabitEthernet0/1", "b": "r2:GigabitEthernet0/1"}],
 "policies": [{"kind": "blocked", "from": "10.1.0.0/24", "to": "10.2.0.0/24"}]}"#;

const TWO_ROUTERS: &[(&str, &str)] = &[("net.json", BLOCKED), ("r1.cfg", R1), ("r2.cfg", R2)];

const R1_OF_TWO_LINKS: &str =
    "hostname r1\n!\ninterface GigabitEthernet0/0\n ip address 10.1.0.1 255.255.255.0\n!\n\
      interface GigabitEthernet0/1\n\x20ip address 10.0.1.1 255.255.255.252\n!\n\
      interface GigabitEthernet0/2\n\x20ip address 10.0.2.1 255.255.255.252\n!\n\
      router ospf 1\n\x20network 0.0.0.0 255.255.255.255 area 0\n!\nend\n";

const R2_OF_TWO_LINKS: &str =
    "hostname r2\n!\ninterface GigabitEthernet0/0\n ip address 10.2.0.1 255.255.255.0\n!\n\
      interface GigabitEthernet0/1\n\x20ip address 10.0.1.2 255.255.255.252\n!\n\
      interface GigabitEthernet0/2\n\x20ip address 10.0.2.2 255.255.255.252\n!\n\
      router ospf 1\n\x20network 0.0.0.0 255.255.255.255 area 0\n!\nend\n";

/// Its lines end in carriage returns and line feeds, but the last one, which has no end.
const R1_WITH_A_BANNER: &str =
    "hostname r1\r\nbanner motd ^C\r\ninterface FastEthernet0/0\r\nrouter bgp 1^C\r\n!\r\n\
      interface GigabitEthernet0/0\r\n\x20ip address 10.1.0.1 255.255.255.0\r\n!\r\n\
      interface GigabitEthernet0/1\r\n\x20ip address 10.0.1.1 255.255.255.252\r\n!\r\n\
      router ospf 1\r\n\x20network 0.0.0.0 255.255.255.255 area 0";

const REACH_OVER_TWO_LINKS: &str = r#"{"version": 1, "routers": ["r1.cfg", "r2.cfg"],
 "links": [{"a": "r1:GigabitEthernet0/1", "b": "r2:GigabitEthernet0/1"},
 {"a": "r1:GigabitEthernet0/2", "b": "r2:GigabitEthernet0/2"}],
 "policies": [{"kind": "reach", "from": "10.1.0.0/24", "to": "10.2.0.0/24", "failures": 1},
 {"kind": "reach", "from": "10.1.0.0/24", "to": "10.2.0.0/24", "failures": 2}]}"#;

const BLOCKED_BY_LISTS: &str = r#"{"version": 1, "routers": ["r1.cfg", "r2.cfg"],
 "links": [{"a": "r1:GigabitEthernet0/1", "b": "r2:GigabitEthernet0/1"}],
 "policies": [{"kind": "blocked", "from": "10.1.0.0/24", "to": "10.2.0.0/24"}],
 "weights": {"list": 1, "filter": 1, "session": 3}}"#;

/// One more entry of the list at r1 is enough, and nothing is cheaper.
const CERTIFICATE: &str =
    "arc-repair 1\nanswer repaired 1 32\nedit packet r1 list F 10.1.0.0/24 10.2.0.0/24\n\
      1 blocked yes 1\nclosed 10.1.0.0/24 10.2.0.0/24\nlog\n272 b 32 0\n273 b 0 0\n\
      274 0 4 273 206 140 75 74 1 9 8 2 5 0\nend\n";

const WALK: &str = "arc-report 1\n1 blocked no 1\nwalk 10.1.0.0/24 10.2.0.0/24 1\nend\n";

const WITH_A_REPORT: &[(&str, &str)] = &[
    ("net.json", BLOCKED),
    ("old", WALK),
    ("r1.cfg", R1),
    ("r2.cfg", R2),
];

/// No assignment gives the variables values.
const EIGHT: &str = "p cnf 3 8\n1 2 3 0\n1 2 -3 0\n1 -2 3 0\n1 -2 -3 0\n\
      -1 2 3 0\n-1 2 -3 0\n-1 -2 3 0\n-1 -2 -3 0\n";

const EIGHT_REFUTED: &str = "9 2 1 0 2 1 0\n10 1 0 9 4 3 0\n11 -2 0 10 8 7 0\n12 0 10 11 6 5 0\n";

pub const CASES: [Case; 11] = [
    Case {
        files: &[
            ("net.json", REACH_OVER_TWO_LINKS),
            ("r1.cfg", R1_OF_TWO_LINKS),
            ("r2.cfg", R2_OF_TWO_LINKS),
        ],
        words: &["verify", "net.json"],
        text: "arc-report 1\n1 reach yes 2\npath 1\npath 2\n2 reach no 2\ncut 1 2\nside r1\nend\n",
        code: 1,
        calls: 6,
        outputs: &[],
    },
    Case {
        files: TWO_ROUTERS,
        words: &["trace", "net.json", "10.1.0.0/24", "10.2.0.0/24"],
        text: "trace 10.1.0.0/24 r1 10.2.0.0/24 r2\nr1 1 via 1\nr2 0\n",
        code: 0,
        calls: 6,
        outputs: &[],
    },
    Case {
        files: WITH_A_REPORT,
        words: &["check", "net.json", "old"],
        text: "accepted\n",
        code: 0,
        calls: 10,
        outputs: &[],
    },
    Case {
        files: &[
            ("net.json", BLOCKED_BY_LISTS),
            ("cert", CERTIFICATE),
            ("r1.cfg", R1_WITH_A_LIST),
            ("r2.cfg", R2_WITH_A_LIST),
        ],
        words: &["check", "net.json", "cert"],
        text: "accepted\n",
        code: 0,
        calls: 10,
        outputs: &[],
    },
    Case {
        files: WITH_A_REPORT,
        words: &["recheck", "net.json", "old"],
        text: "arc-recheck 1\n1 blocked no 1 kept\nwalk 10.1.0.0/24 10.2.0.0/24 1\nend\n",
        code: 1,
        calls: 10,
        outputs: &[],
    },
    Case {
        files: TWO_ROUTERS,
        words: &["nodes", "net.json", "10.1.0.0/24", "10.2.0.0/24", "1"],
        text: "arc-nodes 1\nreach-routers 1 yes 1\narc 1\nend\n",
        code: 0,
        calls: 6,
        outputs: &[],
    },
    Case {
        files: TWO_ROUTERS,
        words: &["prefers", "net.json", "10.1.0.0/24", "10.2.0.0/24", "r1,r2"],
        text: "arc-prefers 1\nprefers yes 2\nlabel r1 1\nlabel r2 0\nend\n",
        code: 0,
        calls: 6,
        outputs: &[],
    },
    // r2 binds a list that does not exist, so that only an entry of the list at r1 is cheap
    Case {
        files: &[
            ("net.json", BLOCKED_BY_LISTS),
            ("r1.cfg", R1_WITH_A_LIST),
            ("r2.cfg", R2_WITH_A_LIST),
        ],
        words: &["repair", "net.json", "--out", ".new", "--proof", "cert"],
        text: "repaired 1\nedit packet r1 list F 10.1.0.0/24 10.2.0.0/24\n\
            wrote r1.cfg.new\nwrote cert\n",
        code: 0,
        calls: 8,
        outputs: &["r1.cfg.new", "cert"],
    },
    Case {
        files: &[
            ("net.json", BLOCKED),
            ("edits", "edit session r1 GigabitEthernet0/1\n"),
            ("r1.cfg", R1_WITH_A_BANNER),
            ("r2.cfg", R2),
        ],
        words: &["apply", "net.json", "edits", "--out", ".new"],
        text: "wrote r1.cfg.new\n",
        code: 0,
        calls: 9,
        outputs: &["r1.cfg.new"],
    },
    Case {
        files: &[("f.cnf", EIGHT)],
        words: &["solve", "f.cnf", "--proof", "proof"],
        text: "s UNSATISFIABLE\n",
        code: 2,
        calls: 3,
        outputs: &["proof"],
    },
    Case {
        files: &[("f.cnf", EIGHT), ("proof", EIGHT_REFUTED)],
        words: &["lrat", "f.cnf", "proof"],
        text: "accepted\n",
        code: 0,
        calls: 6,
        outputs: &[],
    },
];
