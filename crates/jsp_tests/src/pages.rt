//! A status as a page, as metrics and as JSON, and what is answered over HTTP. The texts were
//! worked out by hand.
use jsp_status::{
    Chart, ConnectionCounts, ConnectionStatus, Point, Rates, RefusalCount, Scale, SpaceStatus,
    Status, answer_so_far, serve, to_json, to_metrics, to_page,
};
use std::alloc::{AllocError, Global};
use std::hash::RandomState;
use std::test::Fail;

fn sample(alloc: Global) -> Result<Status, AllocError> {
    let space = SpaceStatus {
        name: String::from_str(alloc, "<a> & \"b\"")?,
        rows: 7,
        waiting: 1,
        registrations: 2,
        match_sets: 3,
    };
    let refusal = RefusalCount {
        number: 5,
        name: String::from_str(alloc, "UnknownSpace")?,
        count: 10,
    };
    let connection = ConnectionStatus {
        number: 3,
        address: String::from_str(alloc, "[::1]:<4>")?,
        open_ms: 5_999,
        requests: 20,
        waiting: 2,
    };
    let chart = Chart {
        name: String::from_str(alloc, "in <a>")?,
        scale: Scale::Tenths,
        top: 40,
        points: vec![in alloc;
            Point { age: 301, value: 0 },
            Point { age: 10, value: 40 },
            Point { age: 5, value: 13 },
        ]?,
    };
    Ok(Status {
        version: String::from_str(alloc, "1.2")?,
        uptime_ms: 61_999,
        era: 4,
        seals: 3,
        memory: Some(8192),
        connections: ConnectionCounts {
            open: 12,
            total: 40,
            peak: 14,
            limit: 250,
        },
        requests: 1000,
        answers: 990,
        rates: Rates {
            requests: 37,
            answers: 36,
            refusals: 1,
        },
        refusals: vec![in alloc; refusal]?,
        living: 9,
        voting: 8,
        rows_limit: 65_536,
        spaces: vec![in alloc; space]?,
        connection_list: vec![in alloc; connection]?,
        charts: vec![in alloc; chart]?,
    })
}

#[test]
fn texts(rt: HostRuntime) -> Result<(), Fail> {
    let alloc = rt.alloc();
    let status = sample(alloc)?;
    assert_eq!(rt;
        to_json(alloc, &status)?.as_str(),
        "{\"answers\":990,\"connection_list\":[{\"address\":\"[::1]:<4>\",\"number\":3,\
        \"open_ms\":5999,\"requests\":20,\"waiting\":2}],\"connections\":12,\"era\":4,\
        \"refusals\":[{\"count\":10,\"name\":\"UnknownSpace\",\"number\":5}],\
        \"requests\":1000,\"seals\":3,\"spaces\":[{\"match_sets\":3,\"name\":\"<a> & \\\"b\\\"\",\
        \"registrations\":2,\"rows\":7,\"waiting\":1}],\"transactions\":{\"living\":9,\"voting\":8},\
        \"uptime_ms\":61999,\
        \"usage\":{\"connections_limit\":250,\"connections_peak\":14,\"connections_total\":40,\
        \"memory_bytes\":8192,\"per_10_seconds\":{\"answers\":36,\"refusals\":1,\"requests\":37},\
        \"rows_limit\":65536},\"version\":\"1.2\"}"
    );
    let page = String::from_utf8(to_page(alloc, &status)?)?;
    for part in [
        "<!DOCTYPE html>\n",
        "<meta http-equiv=\"refresh\" content=\"1\">",
        "<tr><td>seconds up</td><td>61</td></tr>\n",
        "<tr><td>bytes in memory</td><td>8192</td></tr>\n",
        "<tr><td>requests a second</td><td>3.7</td></tr>\n",
        "<tr><td>refusals a second</td><td>0.1</td></tr>\n",
        "<tr><td>UnknownSpace</td><td>5</td><td>10</td></tr>\n</table>",
        "<tr><td>&lt;a&gt; &amp; &quot;b&quot;</td><td>7</td><td>1</td><td>2</td><td>3</td></tr>\n</table>",
        "<tr><td>[::1]:&lt;4&gt;</td><td>3</td><td>5</td><td>20</td><td>2</td></tr>\n</table>",
        "<figcaption>in &lt;a&gt;, at most 4.0</figcaption>",
        // 290 of 300 seconds from the left, and 13/40 of the height of 60 above the lower edge.
        "<polyline points=\"0,60 290,0 295,41 \"/>",
    ] {
        assert!(rt; page.contains(part), "{part}");
    }
    Ok(())
}

#[test]
fn metrics(rt: HostRuntime) -> Result<(), Fail> {
    let alloc = rt.alloc();
    let mut status = sample(alloc)?;
    let text = String::from_utf8(to_metrics(alloc, &status)?)?;
    for part in [
        "# HELP jsp_info Always 1, with the version of the server.\n# TYPE jsp_info gauge\n\
        jsp_info{version=\"1.2\"} 1\n# HELP jsp_uptime_seconds ",
        "\n# TYPE jsp_resident_memory_bytes gauge\njsp_resident_memory_bytes 8192\n",
        "\n# TYPE jsp_requests_total counter\njsp_requests_total 1000\n",
        "\n# TYPE jsp_refusals_total counter\njsp_refusals_total{number=\"5\",name=\"UnknownSpace\"} 10\n",
        "\njsp_space_entries{space=\"<a> & \\\"b\\\"\"} 7\n# HELP jsp_space_waiting_requests ",
    ] {
        assert!(rt; text.contains(part), "{part}");
    }
    status.version = String::from_str(alloc, "a\\b\nc")?;
    status.memory = None;
    let text = String::from_utf8(to_metrics(alloc, &status)?)?;
    assert!(rt; text.contains("jsp_info{version=\"a\\\\b\\nc\"} 1\n"));
    assert!(rt; !text.contains("memory"));
    assert!(rt; to_json(alloc, &status)?.contains("\"memory_bytes\":null,"));
    Ok(())
}

#[test]
fn responses(rt: HostRuntime) -> Result<(), Fail> {
    let alloc = rt.alloc();
    let status = sample(alloc)?;
    let json = to_json(alloc, &status)?;
    let html = "HTTP/1.1 200 OK\r\nconnection: close\r\ncontent-type: text/html; charset=utf-8\r\n\
        cache-control: no-store\r\ncontent-length: ";
    let cases = [
        ("GET / HTTP/1.1\r\nHost: h\r\n\r\n", html, "</html>\n"),
        ("HEAD / HTTP/1.1\r\nHost: h\r\n\r\n", html, "\r\n\r\n"),
        (
            "GET / HTTP/1.0\r\n\r\nGET / HTTP/1.0\r\n\r\n",
            "HTTP/1.0 200 OK\r\n",
            "</html>\n",
        ),
        (
            "GET /status.json?x HTTP/1.1\r\nHost: h\r\n\r\n",
            "HTTP/1.1 200 OK\r\n",
            json.as_str(),
        ),
        (
            "GET /metrics HTTP/1.1\r\nHost: h\r\n\r\n",
            "HTTP/1.1 200 OK\r\nconnection: close\r\ncontent-type: text/plain; version=0.0.4; charset=utf-8\r\n",
            "jsp_space_match_sets{space=\"<a> & \\\"b\\\"\"} 3\n",
        ),
        (
            "GET /a HTTP/1.1\r\nHost: h\r\n\r\n",
            "HTTP/1.1 404 Not Found\r\n",
            "content-length: 0\r\n\r\n",
        ),
        (
            "PUT / HTTP/1.1\r\nHost: h\r\n\r\n",
            "HTTP/1.1 405 Method Not Allowed\r\n",
            "content-length: 0\r\n\r\n",
        ),
        (
            "{\"op\":\"bye\"}\r\n\r\n",
            "HTTP/1.1 400 Bad Request\r\n",
            "content-length: 0\r\n\r\n",
        ),
        (
            "GET / HT",
            "HTTP/1.1 400 Bad Request\r\n",
            "content-length: 0\r\n\r\n",
        ),
    ];
    for (asked, first, last) in cases {
        let mut said = Vec::new(alloc);
        serve(
            alloc,
            RandomState::new(&rt)?,
            &status,
            &mut asked.as_bytes(),
            &mut said,
        )?;
        let said = String::from_utf8(said)?;
        assert!(rt; said.starts_with(first), "{said}");
        assert!(rt; said.ends_with(last), "{said}");
    }
    Ok(())
}

// What is answered at each beginning of this request: nothing before its end, and then the page;
// and where it is all that comes, a refusal before its end.
#[test]
fn answers_so_far(rt: HostRuntime) -> Result<(), Fail> {
    let alloc = rt.alloc();
    let status = sample(alloc)?;
    let asked = b"GET / HTTP/1.1\r\nHost: h\r\n\r\n".as_slice();
    for length in 0..=asked.len() {
        let said = &asked[..length];
        let is_whole = length == asked.len();
        let answer = answer_so_far(alloc, RandomState::new(&rt)?, &status, said, false)?;
        match answer {
            Some(answer) => assert!(rt; is_whole && answer.starts_with(b"HTTP/1.1 200 OK\r\n")),
            None => assert!(rt; !is_whole),
        }
        let answer = answer_so_far(alloc, RandomState::new(&rt)?, &status, said, true)?;
        let Some(answer) = answer else {
            return Err(Fail::new("no answer"));
        };
        assert!(rt;
            answer.starts_with(b"HTTP/1.1 200 OK\r\n") == is_whole,
            "{length}"
        );
    }
    let answer = answer_so_far(
        alloc,
        RandomState::new(&rt)?,
        &status,
        b"what is there?\r\n\r\n",
        false,
    )?;
    assert!(rt; answer.is_some_and(|answer| answer.starts_with(b"HTTP/1.1 400 Bad Request\r\n")));
    Ok(())
}
